// A pack of any make.
ghost use Rattle.std.specs.Prelude.{◌≡◌};
ghost use Rattle.machine.specs.Freshness.{MadeFresh};
ghost use Rattle.machine.specs.Makes.{any_disk, is_plain, pack_bytes};
ghost use Rattle.machine.specs.declared.any_pack.AnyPack.TheVariants.{Plain, Chained};

use basics::refusal::Refusal;
use chained_pack::chained::ChainedPack;
use drive::drive::Drive;
use drive::geometry::{SECTOR_BYTES, Track};
use drive::sector::{Condition, IdField};
use pack::plain_pack::PlainPack;

#[derive(Drop)]
pub enum AnyPack {
    Plain(PlainPack),
    Chained(ChainedPack),
}

impl From<PlainPack> for AnyPack {
    ghost from_gives = { λ p any. any ≡ Plain p };

    fn from(pack: PlainPack) -> AnyPack {
        AnyPack::Plain(pack)
    }
}

impl From<ChainedPack> for AnyPack {
    ghost from_gives = { λ p any. any ≡ Chained p };

    fn from(pack: ChainedPack) -> AnyPack {
        AnyPack::Chained(pack)
    }
}

impl AnyPack {
    pub fn is_plain(&self) -> bool
        ensures { result ≡ is_plain self.now }
    {
        matches!(self, AnyPack::Plain(_))
    }

    // Makes a track of a plain pack fresh, if it is on the drive; a chained pack stays as it is.
    pub fn make_fresh(&mut self, track: Track)
        ensures { MadeFresh self.old track self.new }
    {
        if let AnyPack::Plain(pack) = self {
            let _ = pack.fresh_track(track);
        }
    }

    // the pack's bytes
    pub fn bytes(&self) -> &[u8]
        ensures { result.now ≡ pack_bytes self.now }
    {
        match self {
            AnyPack::Plain(pack) => pack.bytes(),
            AnyPack::Chained(pack) => pack.bytes(),
        }
    }
}

impl Drive for AnyPack {
    ghost meaning = { any_disk };

    ghost lawful = { elim [ Plain d ↦ d.drive | Chained d ↦ d.drive ] };

    fn heads(&self) -> u8 {
        match self {
            AnyPack::Plain(pack) => pack.heads(),
            AnyPack::Chained(pack) => pack.heads(),
        }
    }

    fn id(&self, track: Track, place: u8) -> IdField {
        match self {
            AnyPack::Plain(pack) => pack.id(track, place),
            AnyPack::Chained(pack) => pack.id(track, place),
        }
    }

    fn data_condition(&self, track: Track, place: u8) -> Condition {
        match self {
            AnyPack::Plain(pack) => pack.data_condition(track, place),
            AnyPack::Chained(pack) => pack.data_condition(track, place),
        }
    }

    fn read(&self, track: Track, place: u8) -> Result<&[u8], Refusal> {
        match self {
            AnyPack::Plain(pack) => pack.read(track, place),
            AnyPack::Chained(pack) => pack.read(track, place),
        }
    }

    fn write(
        &mut self,
        track: Track,
        place: u8,
        bytes: &[u8; SECTOR_BYTES],
    ) -> Result<(), Refusal> {
        match self {
            AnyPack::Plain(pack) => pack.write(track, place, bytes),
            AnyPack::Chained(pack) => pack.write(track, place, bytes),
        }
    }
}
