// The chained pack, held in its bytes.
ghost use Rattle.std.specs.Prelude.{◌≡◌, true};
ghost use Rattle.drive.specs.Disk.{Lawful};
ghost use Rattle.chained_pack.specs.Format.{chained_disk};
ghost use Rattle.chained_pack.specs.Lawful.{is_lawful};

pub mod access;
pub mod open;

#[derive(Drop)]
pub struct ChainedPack {
    bytes: Vec<u8>,
    ghost lawful: { is_lawful bytes.items ≡ true },
    pub ghost drive: { Lawful (chained_disk bytes.items) },
}
