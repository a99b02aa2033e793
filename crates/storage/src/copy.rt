// What can be done with any storage.
ghost use Rattle.std.specs.Prelude.{◌≡◌, ◌%◌, true, is_err};
ghost use Rattle.storage.specs.Memory.{copying, copied};

use crate::storage::Storage;
use basics::fault::Fault;

// Copies one word to another address, both under one key.
pub fn copy_word<S: Storage>(storage: &mut S, from: u32, to: u32, key: u8) -> Result<(), Fault>
    ensures verdict { result ≡ copying (S.Storage.meaning storage.old) from to (key % 8) }
    ensures after { S.Storage.meaning storage.new ≡ copied (S.Storage.meaning storage.old) from to (key % 8) }
    ensures refused { is_err result ≡ true → storage.new ≡ storage.old }
{
    let word = storage.load(from, key)?;
    storage.store(to, key, word)
}
