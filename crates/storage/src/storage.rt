// A storage, by its meaning: its size, the word at each even address, and the verdict of each access.
ghost use Rattle.std.specs.Prelude.{◌≡◌, ◌%◌, true, is_err, Option, None};
ghost use Rattle.std.specs.Borrow.{GName};
ghost use Rattle.storage.specs.Memory.{Memory, Lawful, loaded, stored};

use basics::fault::Fault;

// An address is a byte address and may lie past the storage, X10000 included; a key counts by its low three bits.
// Each call tells the verdict of its access. One that is not allowed leaves the storage as it was.
pub trait Storage {
    ghost meaning: { Self → Memory };

    // of a storage that is lent, which loan it is: no store makes another of it
    ghost loan: { Self → Option GName } = { λ _. None };

    // in bytes
    fn size(&self) -> u32
        ensures { result ≡ (meaning self.now).size };

    fn load(&self, address: u32, key: u8) -> Result<u16, Fault>
        ensures { result ≡ loaded (meaning self.now) address (key % 8) };

    fn store(&mut self, address: u32, key: u8, word: u16) -> Result<(), Fault>
        ensures verdict { result ≡ (meaning self.old).stores address (key % 8) }
        ensures after { meaning self.new ≡ stored (meaning self.old) address (key % 8) word }
        ensures refused { is_err result ≡ true → self.new ≡ self.old }
        ensures loan { loan self.new ≡ loan self.old };

    ghost lawful: { (s : Self) → Lawful (meaning s) };
}
