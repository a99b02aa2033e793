// The search for a sector under the heads.
ghost use Rattle.std.specs.Prelude.{◌≡◌, MatchResult};
ghost use Rattle.drive.specs.Search.{ids, searched, Found, Missing};

use crate::drive::Drive;
use crate::geometry::{PLACES, Track};
use crate::sector::SectorId;

// No good ID of the track is the one that was looked for.
#[derive(Clone, Copy, PartialEq, Eq, Debug)]
pub struct NoRecord {
    // whether one of the sixty IDs was spoiled
    pub passed_spoiled: bool,
}

// Looks at the sixty places in order from index for the first good ID that is the argument, and answers its place.
pub fn search<D: Drive>(drive: &D, track: Track, argument: SectorId) -> Result<u8, NoRecord>
    ensures answer { result ≡ searched argument (ids (D.Drive.meaning drive.now) track) }
    ensures law { MatchResult result (λ p. Found (D.Drive.meaning drive.now) track argument p) (λ e. Missing (D.Drive.meaning drive.now) track argument e.passed_spoiled) }
{
    let mut passed_spoiled = false;
    for place in 0..PLACES {
        let field = drive.id(track, place);
        if !field.condition.is_good() {
            passed_spoiled = true;
        } else if field.id.same_as(argument) {
            return Ok(place);
        }
    }
    Err(NoRecord { passed_spoiled })
}
