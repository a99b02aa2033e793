// What is wrong with bytes that are no chained pack.
ghost use Rattle.std.specs.Prelude.{◌≡◌, ◌+◌, ◌*◌, ◌≤◌, length, Some, None, MatchResult};
ghost use Rattle.chained_pack.specs.Format.{directory};
ghost use Rattle.chained_pack.specs.Lawful.{length_clear, header_clear, record_clear, records_clear, chained_fault};

use crate::chain::places_once;
use crate::image::{Chains, Image};
use crate::layout::{COUNT_AT, HEADER_BYTES, RECORD_BYTES, word_at};
use basics::refusal::Refusal;
use drive::geometry::{CYLINDERS, PLACES};

// records that a pack can have: an index has two bytes
const MOST_RECORDS: usize = 65_535;

// whether the length is that of a header and whole records, enough for those in use
pub(crate) fn length_clear(bytes: &[u8]) -> bool
    ensures { result ≡ length_clear bytes.now }
{
    let Some(records) = bytes.len().checked_sub(HEADER_BYTES) else {
        return false;
    };
    let room = records / RECORD_BYTES;
    records % RECORD_BYTES == 0
        && room <= MOST_RECORDS
        && usize::from(word_at(bytes, COUNT_AT)) <= room
}

// whether the text, the heads and the zero are right
fn header_clear(image: Image<'_>) -> bool
    ensures { result ≡ header_clear image.entry.bytes.now }
{
    matches!(image.bytes, [b'4', b'9', b'6', b'2', 2 | 3, 0, ..])
}

// whether a record's track and place are on the drive, and its conditions are 0 or 1
fn record_clear(image: Image<'_>, index: u16) -> bool
    requires { (1 ≤ index) × (index ≤ (directory image.bytes.now).count) }
    ensures { result ≡ record_clear image.entry.bytes.now index }
{
    let front = image.head(index);
    u32::from(front.track) < u32::from(CYLINDERS) * u32::from(image.heads())
        && front.place < PLACES
        && front.id_condition <= 1
        && front.data_condition <= 1
}

// whether every record in use is clear
fn records_clear(image: Image<'_>) -> bool
    ensures { result ≡ records_clear image.entry.bytes.now }
{
    (1..=image.count()).all(|index| record_clear(image, index))
}

// Whether bytes are a chained pack, or what is wrong with them: each rule over the whole pack before the next.
pub(crate) fn check(bytes: &[u8]) -> Result<(), Refusal>
    ensures { MatchResult result (λ _. chained_fault bytes.now ≡ None) (λ e. chained_fault bytes.now ≡ Some e) }
{
    let image = Image::of(bytes).ok_or(Refusal::Length)?;
    if !header_clear(image) {
        return Err(Refusal::Header);
    }
    if !records_clear(image) {
        return Err(Refusal::Record);
    }
    let chains = Chains::of(image).ok_or(Refusal::Chain)?;
    if !places_once(chains) {
        return Err(Refusal::Double);
    }
    Ok(())
}
