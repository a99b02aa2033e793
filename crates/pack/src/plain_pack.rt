// The plain pack: 264 bytes a place, in order of cylinder, head, place.
ghost use Rattle.std.specs.Prelude.{◌≡◌, ◌*◌, ◌≤◌, vec_len};
ghost use Rattle.drive.specs.Disk.{Lawful};
ghost use Rattle.pack.specs.Plain.{plain_disk};

pub mod access;
pub mod fresh;
pub mod open;

// bytes of a place: ID condition, data condition, the ID, a zero, the data
pub const PLACE_BYTES: usize = 264;

// where the data of a place begins
pub const DATA_AT: usize = 8;

#[derive(Drop)]
pub struct PlainPack {
    bytes: Vec<u8>,
    heads: u8,
    ghost low: { 2 ≤ heads },
    ghost high: { heads ≤ 3 },
    ghost long: { vec_len bytes ≡ heads * 4799520 },
    pub ghost drive: { Lawful (plain_disk heads bytes.items) },
}
