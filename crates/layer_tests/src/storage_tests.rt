// What every make of storage allows and refuses.
use basics::fault::Fault;
use basics::refusal::Refusal;
use std::alloc::Global;
use std::test::Fail;
use storage::copy::copy_word;
use storage::keyed::Keyed;
use storage::parity::Parity;
use storage::plain::Plain;
use storage::storage::Storage;

fn plain(heap: Global, size: usize) -> Result<Plain, Fail> {
    match Plain::new(vec![in heap; 0u8; size]?) {
        Ok(storage) => Ok(storage),
        Err(back) => Err(Fail::new(back.refusal.word())),
    }
}

// keys 3, 11 and 0, a block each
fn keyed(heap: Global) -> Result<Keyed, Fail> {
    match Keyed::new(vec![in heap; 0u8; 6144]?, vec![in heap; 3u8, 11, 0]?) {
        Ok(storage) => Ok(storage),
        Err(back) => Err(Fail::new(back.refusal.word())),
    }
}

#[test]
fn sizes(rt: HostRuntime) -> Result<(), Fail> {
    for (size, lawful) in [
        (0usize, false),
        (1, false),
        (2, true),
        (3, false),
        (4096, true),
        (65535, false),
        (65536, true),
        (65538, false),
    ] {
        match Plain::new(vec![in rt.alloc(); 7u8; size]?) {
            Ok(storage) => assert!(rt; lawful && storage.size() as usize == size),
            Err(back) => {
                assert!(rt; !lawful && back.given.len() == size);
                assert_eq!(rt; back.refusal, Refusal::Length);
                assert_eq!(rt; back.refusal.number(), 21);
            }
        }
    }
    Ok(())
}

#[test]
fn keys_for_blocks(rt: HostRuntime) -> Result<(), Fail> {
    for (size, keys, lawful) in [
        (2048usize, 1usize, true),
        (2048, 0, false),
        (2048, 2, false),
        (2050, 1, false),
        (0, 0, false),
        (65536, 32, true),
        (67584, 33, false),
    ] {
        match Keyed::new(
            vec![in rt.alloc(); 0u8; size]?,
            vec![in rt.alloc(); 5u8; keys]?,
        ) {
            Ok(storage) => assert!(rt; lawful && storage.size() as usize == size),
            Err(back) => {
                assert!(rt; !lawful && back.given.0.len() == size && back.given.1.len() == keys);
                assert_eq!(rt; back.refusal, Refusal::Length);
            }
        }
    }
    Ok(())
}

#[test]
fn addresses_at_the_end(rt: HostRuntime) -> Result<(), Fail> {
    let mut small = plain(rt.alloc(), 4096)?;
    let mut whole = plain(rt.alloc(), 65536)?;
    for (address, in_small, in_whole) in [
        (0u32, true, true),
        (1, false, false),
        (4094, true, true),
        (4095, false, false),
        (4096, false, true),
        (0xFFFE, false, true),
        (0xFFFF, false, false),
        (0x10000, false, false),
        (0x10002, false, false),
        (0xFFFF_FFFE, false, false),
    ] {
        assert!(rt; small.store(address, 9, 0xA5C3).is_ok() == in_small);
        assert!(rt; whole.store(address, 9, 0xA5C3).is_ok() == in_whole);
        let expected = if in_whole {
            Ok(0xA5C3)
        } else {
            Err(Fault::InvalidAddress)
        };
        assert_eq!(rt; whole.load(address, 2), expected);
    }
    assert_eq!(rt; small.load(4092, 0), Ok(0));
    Ok(())
}

#[test]
fn keys_0_to_15(rt: HostRuntime) -> Result<(), Fail> {
    let mut storage = keyed(rt.alloc())?;
    for key in 0u8..16 {
        let zero = key % 8 == 0;
        let three = key % 8 == 3;
        for (address, opens) in [
            (2046u32, zero || three),
            (2048, zero || three),
            (4096, zero),
        ] {
            let expected = if opens {
                Ok(())
            } else {
                Err(Fault::ProtectCheck)
            };
            assert_eq!(rt; storage.store(address, key, u16::from(key)), expected);
            let read = if opens {
                Ok(u16::from(key))
            } else {
                Err(Fault::ProtectCheck)
            };
            assert_eq!(rt; storage.load(address, key), read);
        }
        assert_eq!(rt; storage.load(6144, key), Err(Fault::InvalidAddress));
        assert_eq!(rt; storage.load(4097, key), Err(Fault::InvalidAddress));
    }
    assert_eq!(rt; storage.load(2046, 0), Ok(11));
    Ok(())
}

#[test]
fn parity_marks(rt: HostRuntime) -> Result<(), Fail> {
    let mut storage = Parity::new(plain(rt.alloc(), 64)?);
    assert_eq!(rt; storage.mark(64), Err(Refusal::NoSuchPlace));
    assert_eq!(rt; storage.mark(7), Err(Refusal::NoSuchPlace));
    assert_eq!(rt; storage.lift(64), Err(Refusal::NoSuchPlace));
    for i in 0u32..16 {
        assert_eq!(rt; storage.mark(2 * i), Ok(()));
    }
    assert_eq!(rt; storage.mark(32), Err(Refusal::MarksFull));
    assert_eq!(rt;
        storage.mark(33),
        Err(Refusal::NoSuchPlace),
        "no such place before marks full"
    );
    assert_eq!(rt; storage.mark(30), Ok(()), "again, though full");
    assert_eq!(rt; storage.lift(40), Ok(()), "unmarked");
    assert_eq!(rt; storage.mark(32), Err(Refusal::MarksFull));
    assert_eq!(rt; storage.lift(6), Ok(()));
    assert!(rt; !storage.is_marked(6));
    assert_eq!(rt; storage.mark(32), Ok(()), "a freed entry");
    assert!(rt; storage.is_marked(32) && storage.is_marked(0) && storage.is_marked(30));
    Ok(())
}

#[test]
fn parity_verdicts(rt: HostRuntime) -> Result<(), Fail> {
    let mut storage = Parity::new(keyed(rt.alloc())?);
    assert_eq!(rt; storage.mark(4096), Ok(()));
    assert_eq!(rt; storage.load(4096, 0), Err(Fault::StorageDataCheck));
    assert_eq!(rt;
        storage.load(4096, 3),
        Err(Fault::ProtectCheck),
        "below first"
    );
    assert_eq!(rt; storage.store(4096, 0, 5), Ok(()));
    assert_eq!(rt;
        storage.load(4096, 8),
        Err(Fault::StorageDataCheck),
        "a store leaves the mark"
    );
    assert_eq!(rt;
        copy_word(&mut storage, 4096, 0, 0),
        Err(Fault::StorageDataCheck)
    );
    assert_eq!(rt; storage.lift(4096), Ok(()));
    assert_eq!(rt; copy_word(&mut storage, 4096, 0, 0), Ok(()));
    assert_eq!(rt; storage.load(0, 3), Ok(5));
    assert_eq!(rt; Fault::StorageDataCheck.number(), 12);
    assert_eq!(rt; Fault::InvalidAddress.number(), 13);
    assert_eq!(rt; Fault::ProtectCheck.number(), 14);
    Ok(())
}
