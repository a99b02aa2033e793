// That an empty storage is made.
use crate::load::empty_storage;
use std::test::Fail;
use storage::storage::Storage;

#[test]
fn an_empty_storage_is_made(rt: HostRuntime) -> Result<(), Fail> {
    let Ok(storage) = empty_storage(rt.alloc()) else {
        return Err(Fail::new("the storage was refused"));
    };
    assert!(rt; storage.size() == 4096);
    assert!(rt; storage.load(4094, 0) == Ok(0));
    Ok(())
}
