// Keyed storage: whole blocks of 2,048 bytes, each with a key that opens it.
ghost use Rattle.std.specs.Prelude.{◌≡◌, ◌*◌, vec_len};

use crate::plain::Plain;

pub mod access;

pub const BLOCK_BYTES: usize = 2048;

#[derive(Drop)]
pub struct Keyed {
    plain: Plain,
    keys: Vec<u8>,
    ghost blocks: { vec_len plain.bytes ≡ vec_len keys * 2048 },
}
