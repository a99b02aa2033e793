// Plain storage is made of the bytes that it is to hold, and each access is carried out on them.
ghost use Rattle.std.specs.Prelude.{◌≡◌, ◌%◌, true, false, Ok, vec_len, MatchResult};
ghost use Rattle.basics.specs.declared.refusal.Refusal.TheVariants.{Length};
ghost use Rattle.storage.specs.Makes.{lawful_size, plain_memory, inside};
ghost use Rattle.std.proofs.Common.{rules, arith};

use crate::plain::Plain;
use crate::storage::Storage;
use basics::fault::Fault;
use basics::handed_back::HandedBack;
use basics::refusal::Refusal;

impl Plain {
    // Takes over the bytes, or hands them back where there are not a lawful number of them.
    pub fn new(bytes: Vec<u8>) -> Result<Plain, HandedBack<Vec<u8>>>
        ensures { MatchResult result (λ p. (lawful_size (vec_len bytes) ≡ true) × (p.bytes ≡ bytes)) (λ e. (lawful_size (vec_len bytes) ≡ false) × (e.refusal ≡ Length) × (e.given ≡ bytes)) }
    {
        if bytes.len() % 2 != 0 || !(2..=65536).contains(&bytes.len()) {
            return Err(HandedBack {
                refusal: Refusal::Length,
                given: bytes,
            });
        }
        Ok(Plain { bytes })
    }

    // whether a word stands at the address
    pub(crate) fn check(&self, address: u32) -> Result<(), Fault>
        ensures { result ≡ inside (vec_len self.now.bytes) address (Ok tt) }
    {
        if address % 2 != 0 || address as usize >= self.bytes.len() {
            return Err(Fault::InvalidAddress);
        }
        Ok(())
    }
}

impl Storage for Plain {
    ghost meaning = { λ s. plain_memory s.bytes.items };

    ghost lawful = { first_of (Prim.search rules, Prim.grind (arith, Self.row.coded.inj)) };

    fn size(&self) -> u32 {
        self.bytes.len() as u32
    }

    fn load(&self, address: u32, key: u8) -> Result<u16, Fault> {
        self.check(address)?;
        let at = address as usize;
        Ok(u16::from_be_bytes([self.bytes[at], self.bytes[at + 1]]))
    }

    fn store(&mut self, address: u32, key: u8, word: u16) -> Result<(), Fault> {
        self.check(address)?;
        let at = address as usize;
        let [high, low] = word.to_be_bytes();
        self.bytes[at] = high;
        self.bytes[at + 1] = low;
        Ok(())
    }
}
