// Set-up calls that put another pack into the machine. The storage stays, with its marks, and a new run begins.
ghost use Rattle.std.specs.Prelude.{◌≡◌, [], Some, None, vec_len, MatchResult, IsOkAnd, IsErrAnd};
ghost use Rattle.chained_pack.specs.Lawful.{chained_fault};
ghost use Rattle.pack.specs.Plain.{plain_fault};
ghost use Rattle.machine.specs.Freshness.{FreshPack};
ghost use Rattle.machine.specs.SetUp.{OpenedPlain, OpenedChained, WithPack};

use crate::any_pack::AnyPack;
use crate::fresh_pack::fresh_pack;
use crate::machine::Machine;
use basics::handed_back::HandedBack;
use chained_pack::chained::ChainedPack;
use drive::defect_layer::DefectLayer;
use pack::plain_pack::PlainPack;

impl Machine {
    // a pack in place of the one that is there, nothing marked, or the reason why it is none
    fn with_pack<P: Into<AnyPack>>(
        self,
        opened: Result<P, HandedBack<Vec<u8>>>,
    ) -> Result<Machine, HandedBack<Machine>>
        ensures { MatchResult result (λ m. IsOkAnd opened (λ p. WithPack self m (P.Into.converts p) [])) (λ e. IsErrAnd opened (λ back. e ≡ record { refusal = back.refusal; given = self })) }
    {
        match opened {
            Ok(pack) => {
                let device = self.device();
                let (_, storage) = self.end();
                Ok(Machine::begin(device, DefectLayer::new(pack.into()), storage))
            }
            Err(back) => Err(HandedBack {
                refusal: back.refusal,
                given: self,
            }),
        }
    }

    // The plain pack with these bytes.
    pub fn plain_pack(self, bytes: Vec<u8>) -> Result<Machine, HandedBack<Machine>>
        ensures { MatchResult result (λ m. (plain_fault bytes.items ≡ None) × WithPack self m (OpenedPlain bytes) []) (λ e. (plain_fault bytes.items ≡ Some e.refusal) × (e.given ≡ self)) }
    {
        self.with_pack(PlainPack::open(bytes))
    }

    // A plain pack of this many bytes with every track fresh; of the bytes nothing is kept.
    pub fn fresh_pack(self, bytes: Vec<u8>) -> Result<Machine, HandedBack<Machine>>
        ensures { MatchResult result (λ m. (plain_fault bytes.items ≡ None) × WithPack self m (FreshPack (vec_len bytes)) []) (λ e. (plain_fault bytes.items ≡ Some e.refusal) × (e.given ≡ self)) }
    {
        self.with_pack(fresh_pack(bytes))
    }

    // The chained pack with these bytes.
    pub fn chained_pack(self, bytes: Vec<u8>) -> Result<Machine, HandedBack<Machine>>
        ensures { MatchResult result (λ m. (chained_fault bytes.items ≡ None) × WithPack self m (OpenedChained bytes) []) (λ e. (chained_fault bytes.items ≡ Some e.refusal) × (e.given ≡ self)) }
    {
        self.with_pack(ChainedPack::open(bytes))
    }
}
