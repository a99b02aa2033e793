// A storage of any make.
ghost use Rattle.std.specs.Prelude.{◌≡◌};
ghost use Rattle.machine.specs.Makes.{any_memory};
ghost use Rattle.machine.specs.declared.any_storage.AnyStorage.TheVariants.{Plain as MadePlain, Keyed as MadeKeyed};
ghost use Rattle.std.proofs.Common.{rules};

use basics::fault::Fault;
use storage::keyed::Keyed;
use storage::plain::Plain;
use storage::storage::Storage;

#[derive(Drop)]
pub enum AnyStorage {
    Plain(Plain),
    Keyed(Keyed),
}

impl From<Plain> for AnyStorage {
    ghost from_gives = { λ s any. any ≡ MadePlain s };

    fn from(storage: Plain) -> AnyStorage {
        AnyStorage::Plain(storage)
    }
}

impl From<Keyed> for AnyStorage {
    ghost from_gives = { λ s any. any ≡ MadeKeyed s };

    fn from(storage: Keyed) -> AnyStorage {
        AnyStorage::Keyed(storage)
    }
}

impl Storage for AnyStorage {
    ghost meaning = { any_memory };

    ghost lawful = { Prim.search rules };

    fn size(&self) -> u32 {
        match self {
            AnyStorage::Plain(storage) => storage.size(),
            AnyStorage::Keyed(storage) => storage.size(),
        }
    }

    fn load(&self, address: u32, key: u8) -> Result<u16, Fault> {
        match self {
            AnyStorage::Plain(storage) => storage.load(address, key),
            AnyStorage::Keyed(storage) => storage.load(address, key),
        }
    }

    fn store(&mut self, address: u32, key: u8, word: u16) -> Result<(), Fault> {
        match self {
            AnyStorage::Plain(storage) => storage.store(address, key, word),
            AnyStorage::Keyed(storage) => storage.store(address, key, word),
        }
    }
}
