// The disk's geometry, and where on the drive a track is.
ghost use Rattle.std.specs.Prelude.{◌≡◌};
ghost use Rattle.drive.specs.Disk.{on_drive};

// cylinders of a drive, 0 to 302
pub const CYLINDERS: u16 = 303;

// places of a track, 0 to 59 from index
pub const PLACES: u8 = 60;

// bytes of a sector's data
pub const SECTOR_BYTES: usize = 256;

// The track under one head at one cylinder.
#[derive(Clone, Copy, PartialEq, Eq, Debug, Default)]
pub struct Track {
    pub cylinder: u16,
    pub head: u8,
}

impl Track {
    // whether a place of the track is on a drive with so many heads
    pub fn has_place(self, heads: u8, place: u8) -> bool
        ensures { result ≡ on_drive heads self place }
    {
        self.cylinder < CYLINDERS && self.head < heads && place < PLACES
    }
}
