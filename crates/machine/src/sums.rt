// The sums by which the data of a place and a whole drive are shown.
ghost use Rattle.std.specs.Prelude.{◌≡◌, ◌+◌, ◌*◌, ◌%◌, ◌^◌, ◌<◌, length};
ghost use Rattle.machine.specs.Sums.{weighed, data_sum, place_bytes, track_sum, places_sum};

use crate::tracks::track_at;
use drive::drive::Drive;
use drive::geometry::{CYLINDERS, PLACES, Track};

// where the data stands among the bytes of a place, counted from 1
const DATA_FROM: u32 = 9;

// each byte times its index, counted from `first` on, summed modulo 2^32
fn weigh(bytes: &[u8], first: u32) -> u32
    requires { first + length bytes.now < 2 ^ 32 }
    ensures { result ≡ weighed first bytes.now % 2 ^ 32 }
{
    let mut sum = 0u32;
    for (index, byte) in bytes.iter().enumerate() {
        sum = sum.wrapping_add((*byte as u32).wrapping_mul(first + index as u32));
    }
    sum
}

// The sum of the data of a place, or none where it can't be read.
pub fn data_sum<D: Drive>(drive: &D, track: Track, place: u8) -> Option<u32>
    ensures { result ≡ data_sum (D.Drive.meaning drive.now) track place }
{
    let Ok(bytes) = drive.read(track, place) else {
        return None;
    };
    Some(weigh(bytes, 1))
}

// the sum of all that a drive tells of a place
fn place_sum<D: Drive>(drive: &D, track: Track, place: u8) -> u32
    ensures { result ≡ weighed 1 (place_bytes (D.Drive.meaning drive.now) track place) % 2 ^ 32 }
{
    let field = drive.id(track, place);
    let [cylinder_high, cylinder_low] = field.id.cylinder.to_be_bytes();
    let front = [
        u8::from(field.condition),
        u8::from(drive.data_condition(track, place)),
        field.id.flag,
        cylinder_high,
        cylinder_low,
        field.id.head,
        field.id.sector,
        0,
    ];
    let behind = match drive.read(track, place) {
        Ok(bytes) => weigh(bytes, DATA_FROM),
        Err(_) => 0,
    };
    weigh(&front, 1).wrapping_add(behind)
}

// the sums of a track's places, each times its number; some places come before the track
fn track_sum<D: Drive>(drive: &D, track: Track, before: u32) -> u32
    requires { before < 2 ^ 31 }
    ensures { result ≡ track_sum (D.Drive.meaning drive.now) track before % 2 ^ 32 }
{
    let mut sum = 0u32;
    for place in 0..PLACES {
        let number = before + place as u32 + 1;
        sum = sum.wrapping_add(place_sum(drive, track, place).wrapping_mul(number));
    }
    sum
}

// The sum over all places of the drive.
pub fn places_sum<D: Drive>(drive: &D) -> u32
    ensures { result ≡ places_sum (D.Drive.meaning drive.now) }
{
    let heads = drive.heads();
    let mut sum = 0u32;
    for number in 0..CYLINDERS * heads as u16 {
        let before = number as u32 * PLACES as u32;
        sum = sum.wrapping_add(track_sum(drive, track_at(number, heads), before));
    }
    sum
}
