// The parity layer: a storage below, in which up to sixteen words are marked as having bad parity.
// Reading a marked word that is allowed below is a storage data check.
ghost use Rattle.std.specs.Prelude.{◌≡◌, ℕ, ◌%◌, true, is_err};
ghost use Rattle.basics.specs.Table.{held};
ghost use Rattle.storage.specs.Memory.{is_word, stored};
ghost use Rattle.storage.specs.Makes.{parity_memory};
ghost use Rattle.std.proofs.Common.{rules};

use crate::storage::Storage;
use basics::fault::Fault;
use basics::layer::{Extent, Layer};

pub const PARITY_MARKS: usize = 16;

// The words of a storage, by their addresses. None is made but here.
pub struct Words(());

pub type Parity<S> = Layer<S, u32, Words, PARITY_MARKS>;

impl<S: Storage> Extent<S, u32> for Words {
    ghost reaches = { λ s a. is_word (S.Storage.meaning s).size a };

    fn reaches(storage: &S, address: &u32) -> bool {
        *address % 2 == 0 && *address < storage.size()
    }
}

impl<S: Storage> Storage for Parity<S> {
    ghost meaning = { λ s. parity_memory (held s.marks) (S.Storage.meaning s.below) };

    ghost loan = { λ s. S.Storage.loan s.below };

    ghost lawful = { λ s. Prim.search (rules, S.Storage.lawful s.below) };

    fn size(&self) -> u32 {
        self.below().size()
    }

    fn load(&self, address: u32, key: u8) -> Result<u16, Fault> {
        let word = self.below().load(address, key)?;
        if self.is_marked(address) {
            return Err(Fault::StorageDataCheck);
        }
        Ok(word)
    }

    // Besides what every storage owes: the marks stay.
    fn store(&mut self, address: u32, key: u8, word: u16) -> Result<(), Fault>
        ensures verdict { result ≡ (parity_memory (held self.old.marks) (S.Storage.meaning self.old.below)).stores address (key % 8) }
        ensures after { parity_memory (held self.new.marks) (S.Storage.meaning self.new.below) ≡ stored (parity_memory (held self.old.marks) (S.Storage.meaning self.old.below)) address (key % 8) word }
        ensures refused { is_err result ≡ true → self.new ≡ self.old }
        ensures loan { S.Storage.loan self.new.below ≡ S.Storage.loan self.old.below }
        ensures marks { self.new.marks ≡ self.old.marks }
    {
        self.below_mut(&Words(())).store(address, key, word)
    }
}
