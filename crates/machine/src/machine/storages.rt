// Set-up calls that put another storage into the machine. The pack stays, with its marks, and a new run begins.
ghost use Rattle.std.specs.Prelude.{◌≡◌, ◌*◌, true, false, ◌&&◌, [], vec_len, MatchResult, ◌==◌, IsOkAnd, IsErrAnd};
ghost use Rattle.basics.specs.declared.refusal.Refusal.TheVariants.{Length};
ghost use Rattle.storage.specs.Makes.{lawful_size};
ghost use Rattle.machine.specs.SetUp.{HoldsPlain, HoldsKeyed, WithStorage};

use crate::any_storage::AnyStorage;
use crate::machine::Machine;
use basics::handed_back::HandedBack;
use storage::keyed::Keyed;
use storage::parity::Parity;
use storage::plain::Plain;

impl Machine {
    // a storage in place of the one that is there, nothing marked, or the reason why it is none
    fn with_storage<S: Into<AnyStorage>, G: Drop>(
        self,
        made: Result<S, HandedBack<G>>,
    ) -> Result<Machine, HandedBack<Machine>>
        ensures { MatchResult result (λ m. IsOkAnd made (λ s. WithStorage self m (S.Into.converts s) [])) (λ e. IsErrAnd made (λ back. e ≡ record { refusal = back.refusal; given = self })) }
    {
        match made {
            Ok(storage) => {
                let device = self.device();
                let (drive, _) = self.end();
                Ok(Machine::begin(device, drive, Parity::new(storage.into())))
            }
            Err(back) => Err(HandedBack {
                refusal: back.refusal,
                given: self,
            }),
        }
    }

    // Plain storage that holds the bytes.
    pub fn plain_storage(self, bytes: Vec<u8>) -> Result<Machine, HandedBack<Machine>>
        ensures { MatchResult result (λ m. (lawful_size (vec_len bytes) ≡ true) × WithStorage self m (HoldsPlain bytes) []) (λ e. (lawful_size (vec_len bytes) ≡ false) × (e.refusal ≡ Length) × (e.given ≡ self)) }
    {
        self.with_storage(Plain::new(bytes))
    }

    // Keyed storage that holds the bytes, with a key for each block.
    pub fn keyed_storage(
        self,
        bytes: Vec<u8>,
        keys: Vec<u8>,
    ) -> Result<Machine, HandedBack<Machine>>
        ensures { MatchResult result (λ m. (lawful_size (vec_len bytes) && (vec_len bytes == vec_len keys * 2048) ≡ true) × WithStorage self m (HoldsKeyed bytes keys) []) (λ e. (lawful_size (vec_len bytes) && (vec_len bytes == vec_len keys * 2048) ≡ false) × (e.refusal ≡ Length) × (e.given ≡ self)) }
    {
        self.with_storage(Keyed::new(bytes, keys))
    }
}
