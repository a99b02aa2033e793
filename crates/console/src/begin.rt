// Memory for storages and packs, and the machine that a script begins with.
use crate::undone::NotDone;
use anyhow::anyhow;
use machine::any_pack::AnyPack;
use machine::any_storage::AnyStorage;
use machine::fresh_pack::fresh_pack;
use machine::machine::Machine;
use pack::plain_pack::open::{THREE_HEADS_BYTES, TWO_HEADS_BYTES};
use script::line::Keys;
use std::alloc::{AllocError, Global};
use storage::keyed::BLOCK_BYTES;
use storage::plain::Plain;

// the largest storage
const MOST_BYTES: usize = 65_536;

// kept: where nothing can have so many bytes, keys or heads, some are made that the machine refuses, as is proved of it
// Bytes for a storage of this size; one that is too large gets one byte too many, and the machine refuses it by that.
pub fn storage_bytes(heap: Global, size: usize) -> Result<Vec<u8>, NotDone> {
    Ok(vec![in heap; 0u8; size.min(MOST_BYTES + 1)]?)
}

// The keys of a line; where there are more than 32, one more, and the machine makes no storage with those.
fn keys(heap: Global, given: Keys) -> Result<Vec<u8>, AllocError> {
    let mut keys = given.keys.to_vec(heap)?;
    if given.count > keys.len() {
        keys.push(0)?;
    }
    keys.truncate(given.count);
    Ok(keys)
}

// Bytes for the blocks of keyed storage, with their keys.
pub fn keyed_bytes(heap: Global, given: Keys) -> Result<(Vec<u8>, Vec<u8>), NotDone> {
    let keys = keys(heap, given)?;
    let bytes = storage_bytes(heap, keys.len().saturating_mul(BLOCK_BYTES))?;
    Ok((bytes, keys))
}

// Bytes for a plain pack of so many heads; no bytes are no pack, and the machine refuses them.
pub fn pack_bytes(heap: Global, heads: u32) -> Result<Vec<u8>, NotDone> {
    let size = match heads {
        2 => TWO_HEADS_BYTES,
        3 => THREE_HEADS_BYTES,
        _ => 0,
    };
    Ok(vec![in heap; 0u8; size]?)
}

// Plain storage of 65,536 bytes, a fresh pack of two heads, device 00.
pub fn machine(heap: Global) -> anyhow::Result<Machine> {
    let pack = fresh_pack(vec![in heap; 0u8; TWO_HEADS_BYTES]?).map_err(|_| anyhow!(
        "the first pack was refused"
    ))?;
    let storage = Plain::new(vec![in heap; 0u8; MOST_BYTES]?).map_err(|_| anyhow!(
        "the first storage was refused"
    ))?;
    Ok(Machine::new(0, AnyPack::Plain(pack), AnyStorage::Plain(storage)))
}
