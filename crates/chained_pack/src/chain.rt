// Following the chains of a pack.
ghost use Rattle.std.specs.Prelude.{◌≡◌, ◌<◌, true, false, length, MatchOption};
ghost use Rattle.chained_pack.specs.Chains.{chain_of, chain_clear, chains_clear, each_of, is_first, places_once, found_on};
ghost use Rattle.chained_pack.specs.Format.{directory};

use crate::image::{Chains, Image};
use crate::layout::CHAINS;
use crate::records::Records;

// How many records a chain has, if it is clear. Only then may its records be gone through without a test.
fn chain_length(image: Image<'_>, chain: u16) -> Option<usize>
    ensures { MatchOption result (chain_clear (directory image.entry.bytes.now) chain ≡ false) (λ n. (chain_clear (directory image.entry.bytes.now) chain ≡ true) × (n ≡ length (chain_of (directory image.entry.bytes.now) chain))) }
{
    let used = image.count();
    let mut index = image.first(chain);
    for records in 0..=usize::from(used) {
        if index == 0 {
            return Some(records);
        }
        if index > used {
            return None;
        }
        let front = image.head(index);
        if front.track % CHAINS != chain {
            return None;
        }
        index = front.next;
    }
    None
}

// whether every chain is clear and no record in use is left over
pub(crate) fn chains_clear(image: Image<'_>) -> bool
    ensures { result ≡ chains_clear (directory image.entry.bytes.now) }
{
    let used = usize::from(image.count());
    let mut records = 0;
    for chain in 0..CHAINS {
        let Some(length) = chain_length(image, chain) else {
            return false;
        };
        records += length;
    }
    records == used
}

// the record of a track's place, looked for along the track's chain
pub(crate) fn find(chains: Chains<'_>, track: u16, place: u8) -> Option<u16>
    ensures { result ≡ found_on (directory chains.entry.image.bytes.now) track place }
{
    Records::of_chain(chains, track % CHAINS)
        .find(|(_, front)| front.track == track && front.place == place)
        .map(|(index, _)| index)
}

// whether each record of a chain is the first of its place there
fn chain_single(chains: Chains<'_>, chain: u16) -> bool
    requires { chain < 64 }
    ensures { result ≡ each_of (is_first (directory chains.entry.image.bytes.now)) (chain_of (directory chains.entry.image.bytes.now) chain) }
{
    Records::of_chain(chains, chain).all(|(index, front)| {
        let first = find(chains, front.track, front.place);
        first == Some(index)
    })
}

// whether no place is recorded twice; the first place that is ends the search, so no record is looked for
// past the 900 places of a chain
pub(crate) fn places_once(chains: Chains<'_>) -> bool
    ensures { result ≡ places_once (directory chains.entry.image.bytes.now) }
{
    (0..CHAINS).all(|chain| chain_single(chains, chain))
}
