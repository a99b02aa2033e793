// The tracks of a drive by number.
ghost use Rattle.std.specs.Prelude.{◌≡◌, ◌≤◌};
ghost use Rattle.machine.specs.Tracks.{track_at};

use drive::geometry::Track;

// the track with this number, counted by cylinder, then by head
pub(crate) fn track_at(number: u16, heads: u8) -> Track
    requires { 1 ≤ heads }
    ensures { result ≡ track_at heads number }
{
    Track {
        cylinder: number / heads as u16,
        head: (number % heads as u16) as u8,
    }
}
