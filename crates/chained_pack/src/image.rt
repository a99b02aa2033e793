// The bytes of a pack, by what is known of them.
ghost use Rattle.std.specs.Prelude.{◌≡◌, true, false, MatchOption};
ghost use Rattle.chained_pack.specs.Chains.{chains_clear};
ghost use Rattle.chained_pack.specs.Format.{HasUsed, directory};
ghost use Rattle.chained_pack.specs.Lawful.{length_clear};

use crate::chain::chains_clear;
use crate::check::length_clear;

// Bytes with room for the records in use.
#[derive(Clone, Copy)]
pub(crate) struct Image<'a> {
    pub(crate) bytes: &'a [u8],
    ghost used: { HasUsed bytes.now },
}

impl<'a> Image<'a> {
    pub(crate) fn of(bytes: &'a [u8]) -> Option<Self>
        ensures { MatchOption result (length_clear bytes.now ≡ false) (λ i. (length_clear bytes.now ≡ true) × (i.bytes.now ≡ bytes.now)) }
    {
        if !length_clear(bytes) {
            return None;
        }
        Some(Image { bytes })
    }
}

// An image whose chains are clear, so that they can be followed without a test.
#[derive(Clone, Copy)]
pub(crate) struct Chains<'a> {
    pub(crate) image: Image<'a>,
    ghost clear: { chains_clear (directory image.bytes.now) ≡ true },
}

impl<'a> Chains<'a> {
    pub(crate) fn of(image: Image<'a>) -> Option<Self>
        ensures { MatchOption result (chains_clear (directory image.entry.bytes.now) ≡ false) (λ c. (chains_clear (directory image.entry.bytes.now) ≡ true) × (c.image.bytes.now ≡ image.entry.bytes.now)) }
    {
        if !chains_clear(image) {
            return None;
        }
        Some(Chains { image })
    }
}
