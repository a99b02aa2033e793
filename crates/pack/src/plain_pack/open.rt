// A plain pack is opened from bytes, and gives them back.
ghost use Rattle.std.specs.Prelude.{◌≡◌, ◌+◌, ◌*◌, ◌≤◌, length, Some, None, vec_len, MatchResult};
ghost use Rattle.pack.specs.Plain.{heads_of, zero_clear, conditions_clear, places_fault, plain_fault};

use crate::plain_pack::{DATA_AT, PLACE_BYTES, PlainPack};
use basics::handed_back::HandedBack;
use basics::refusal::Refusal;

// the two lawful lengths
pub const TWO_HEADS_BYTES: usize = 9_599_040;

pub const THREE_HEADS_BYTES: usize = 14_398_560;

// the places of one head
const PLACES_PER_HEAD: usize = 18_180;

// the heads of a pack of this length
fn heads_of(len: usize) -> Option<u8>
    ensures { result ≡ heads_of len }
{
    match len {
        TWO_HEADS_BYTES => Some(2),
        THREE_HEADS_BYTES => Some(3),
        _ => None,
    }
}

// whether the byte between ID and data of a place is zero
fn zero_clear(bytes: &[u8], place: usize) -> bool
    requires { place * 264 + 264 ≤ length bytes.now }
    ensures { result ≡ zero_clear bytes.now place }
{
    bytes[place * PLACE_BYTES + DATA_AT - 1] == 0
}

// whether both conditions of a place are 0 or 1
fn conditions_clear(bytes: &[u8], place: usize) -> bool
    requires { place * 264 + 264 ≤ length bytes.now }
    ensures { result ≡ conditions_clear bytes.now place }
{
    bytes[place * PLACE_BYTES] <= 1 && bytes[place * PLACE_BYTES + 1] <= 1
}

// Whether the first places are a plain pack's, or what is wrong with them: a zero byte anywhere comes before a condition.
// kept: a wrong condition is remembered to the end, so that a pack is gone through once, where two walks with `all` go twice
fn check_places(bytes: &[u8], places: usize) -> Result<(), Refusal>
    requires { places * 264 ≤ length bytes.now }
    ensures { MatchResult result (λ _. places_fault bytes.now places ≡ None) (λ e. places_fault bytes.now places ≡ Some e) }
{
    let mut conditions = true;
    for place in 0..places {
        if !zero_clear(bytes, place) {
            return Err(Refusal::Header);
        }
        conditions &= conditions_clear(bytes, place);
    }
    if conditions {
        Ok(())
    } else {
        Err(Refusal::Record)
    }
}

// The heads of a plain pack of these bytes, or what is wrong with them.
fn check(bytes: &[u8]) -> Result<u8, Refusal>
    ensures { MatchResult result (λ heads. (plain_fault bytes.now ≡ None) × (heads_of (length bytes.now) ≡ Some heads)) (λ e. plain_fault bytes.now ≡ Some e) }
{
    let heads = heads_of(bytes.len()).ok_or(Refusal::Length)?;
    check_places(bytes, usize::from(heads) * PLACES_PER_HEAD)?;
    Ok(heads)
}

impl PlainPack {
    // Takes over the bytes, or hands them back with what is wrong with them.
    pub fn open(bytes: Vec<u8>) -> Result<PlainPack, HandedBack<Vec<u8>>>
        ensures { MatchResult result (λ p. (plain_fault bytes.items ≡ None) × (p.bytes ≡ bytes) × (heads_of (vec_len bytes) ≡ Some p.heads)) (λ e. (plain_fault bytes.items ≡ Some e.refusal) × (e.given ≡ bytes)) }
    {
        match check(&bytes) {
            Ok(heads) => Ok(PlainPack { bytes, heads }),
            Err(refusal) => Err(HandedBack {
                refusal,
                given: bytes,
            }),
        }
    }

    // the pack's bytes
    pub fn bytes(&self) -> &[u8]
        ensures { result.now ≡ self.now.bytes.items }
    {
        self.bytes.as_slice()
    }

    // Gives the bytes back.
    pub fn into_bytes(self) -> Vec<u8>
        ensures { result ≡ self.bytes }
    {
        let PlainPack { bytes, heads: _ } = self;
        bytes
    }
}
