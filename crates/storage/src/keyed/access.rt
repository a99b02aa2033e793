// Keyed storage is made of its bytes and a key for each block, and asks for the key at each access.
ghost use Rattle.std.specs.Prelude.{◌≡◌, ◌*◌, ◌/◌, ◌%◌, true, false, ◌&&◌, vec_len, MatchResult, ◌==◌, slice_get};
ghost use Rattle.std.specs.Option.{option_map};
ghost use Rattle.basics.specs.declared.refusal.Refusal.TheVariants.{Length};
ghost use Rattle.storage.specs.Makes.{lawful_size, plain_memory, keyed_memory, key_verdict};
ghost use Rattle.std.proofs.Common.{rules, arith};

use crate::keyed::{BLOCK_BYTES, Keyed};
use crate::plain::Plain;
use crate::storage::Storage;
use basics::fault::Fault;
use basics::handed_back::HandedBack;
use basics::refusal::Refusal;

impl Keyed {
    // Takes over the bytes and the keys, or hands both back where they are not a lawful size or not one key a block.
    pub fn new(bytes: Vec<u8>, keys: Vec<u8>) -> Result<Keyed, HandedBack<(Vec<u8>, Vec<u8>)>>
        ensures { MatchResult result (λ s. (lawful_size (vec_len bytes) && (vec_len bytes == vec_len keys * 2048) ≡ true) × (s.plain.bytes ≡ bytes) × (s.keys ≡ keys)) (λ e. (lawful_size (vec_len bytes) && (vec_len bytes == vec_len keys * 2048) ≡ false) × (e.refusal ≡ Length) × (e.given ≡ (bytes, keys))) }
    {
        if bytes.len() / BLOCK_BYTES != keys.len() || bytes.len() % BLOCK_BYTES != 0 {
            return Err(HandedBack {
                refusal: Refusal::Length,
                given: (bytes, keys),
            });
        }
        match Plain::new(bytes) {
            Ok(plain) => Ok(Keyed { plain, keys }),
            Err(HandedBack { refusal, given }) => Err(HandedBack {
                refusal,
                given: (given, keys),
            }),
        }
    }

    // the key of the block of an address; past the last block there is none
    fn block_key(&self, address: u32) -> Option<u8>
        ensures { result ≡ option_map (λ k. k % 8) (slice_get self.now.keys.items (address / 2048)) }
    {
        self.keys
            .get(address as usize / BLOCK_BYTES)
            .map(|key| key % 8)
    }

    // whether the key opens the block of the address
    fn open(&self, address: u32, key: u8) -> Result<(), Fault>
        ensures { result ≡ key_verdict self.now.keys.items address (key % 8) }
    {
        if key % 8 == 0 || self.block_key(address) == Some(key % 8) {
            return Ok(());
        }
        Err(Fault::ProtectCheck)
    }
}

impl Storage for Keyed {
    ghost meaning = { λ s. keyed_memory s.keys.items (plain_memory s.plain.bytes.items) };

    ghost lawful = { first_of (Prim.search rules, Prim.grind (arith, Self.row.coded.inj)) };

    fn size(&self) -> u32 {
        self.plain.size()
    }

    fn load(&self, address: u32, key: u8) -> Result<u16, Fault> {
        let word = self.plain.load(address, key)?;
        self.open(address, key)?;
        Ok(word)
    }

    fn store(&mut self, address: u32, key: u8, word: u16) -> Result<(), Fault> {
        self.plain.check(address)?;
        self.open(address, key)?;
        self.plain.store(address, key, word)
    }
}
