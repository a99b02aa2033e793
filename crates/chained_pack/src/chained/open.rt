// A chained pack is opened from bytes, and gives them back.
ghost use Rattle.std.specs.Prelude.{◌≡◌, IfOk, Some, None, MatchResult};
ghost use Rattle.chained_pack.specs.Format.{directory};
ghost use Rattle.chained_pack.specs.Lawful.{chained_fault};
ghost use Rattle.chained_pack.specs.Laws.{Loopless, Orderly};

use crate::chained::ChainedPack;
use crate::check::check;
use basics::handed_back::HandedBack;

impl ChainedPack {
    // Takes over the bytes, or hands them back with what is wrong with them.
    pub fn open(bytes: Vec<u8>) -> Result<ChainedPack, HandedBack<Vec<u8>>>
        ensures opened { MatchResult result (λ p. (chained_fault bytes.items ≡ None) × (p.bytes ≡ bytes)) (λ e. (chained_fault bytes.items ≡ Some e.refusal) × (e.given ≡ bytes)) }
        ensures loops { Loopless }
        ensures orderly { IfOk result (λ p. Orderly (directory p.bytes.items)) }
    {
        match check(&bytes) {
            Ok(()) => Ok(ChainedPack { bytes }),
            Err(refusal) => Err(HandedBack {
                refusal,
                given: bytes,
            }),
        }
    }

    // the pack's bytes
    pub fn bytes(&self) -> &[u8]
        ensures { result.now ≡ self.now.bytes.items }
    {
        self.bytes.as_slice()
    }

    // Gives the bytes back.
    pub fn into_bytes(self) -> Vec<u8>
        ensures { result ≡ self.bytes }
    {
        let ChainedPack { bytes } = self;
        bytes
    }
}
