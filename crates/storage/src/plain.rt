// Plain storage: every word may be read and stored with every key.
ghost use Rattle.std.specs.Prelude.{◌≡◌, ◌%◌, ◌≤◌, vec_len};

pub mod access;

#[derive(Drop)]
pub struct Plain {
    bytes: Vec<u8>,
    ghost even: { vec_len bytes % 2 ≡ 0 },
    ghost low: { 2 ≤ vec_len bytes },
    ghost high: { vec_len bytes ≤ 65536 },
}
