// A storage that is lent is a storage: what holds of it holds of the loan.
ghost use Rattle.std.specs.Prelude.{Some};

use crate::storage::Storage;
use basics::fault::Fault;

impl<S: Storage> Storage for &mut S {
    ghost meaning = { λ s. S.meaning s.now };

    ghost loan = { λ s. Some s.ghost_name };

    ghost lawful = { λ s. S.lawful s.now };

    fn size(&self) -> u32 {
        (**self).size()
    }

    fn load(&self, address: u32, key: u8) -> Result<u16, Fault> {
        (**self).load(address, key)
    }

    fn store(&mut self, address: u32, key: u8, word: u16) -> Result<(), Fault> {
        (**self).store(address, key, word)
    }
}
