// The console's own task: a recipe is put into a sector of a fresh cylinder, read back and compared, and the track is
// listed; then a sector of a chained pack is spoiled by a mark and healed by a write.
use crate::{heal, recipe, show};
use anyhow::anyhow;
use drive::drive::Drive;
use drive::geometry::Track;
use load::load::empty_storage;
use pack::plain_pack::PlainPack;
use pack::plain_pack::open::TWO_HEADS_BYTES;
use std::alloc::Global;

const CYLINDER: u16 = 12;

const RECIPE_SECTOR: u8 = 7;

// A pack of two heads in memory, with the tracks of one cylinder made fresh.
fn fresh_cylinder(heap: Global) -> anyhow::Result<PlainPack> {
    let bytes = vec![in heap; 0u8; TWO_HEADS_BYTES]?;
    let mut pack = PlainPack::open(bytes).map_err(|_| anyhow!("the pack was refused"))?;
    for head in 0..2 {
        let track = Track {
            cylinder: CYLINDER,
            head,
        };
        pack.fresh_track(track)
            .map_err(|_| anyhow!("a track is not on the drive"))?;
    }
    Ok(pack)
}

pub fn run(rt: &HostRuntime) -> anyhow::Result<()> {
    let track = Track {
        cylinder: CYLINDER,
        head: 1,
    };
    let mut pack = fresh_cylinder(rt.alloc())?;
    println!(rt; "cylinder {CYLINDER} of a plain pack of two heads is fresh")?;
    let mut storage = empty_storage(rt.alloc())?;
    recipe::enter(&mut storage)?;
    let place = recipe::write(&storage, &mut pack, track, RECIPE_SECTOR)?;
    println!(rt; "the recipe went into sector {RECIPE_SECTOR}, found at place {place}")?;
    let alike = recipe::read_back(&mut storage, &pack, track, RECIPE_SECTOR)?;
    println!(rt;
        "read back into storage: {alike} of {} words are alike",
        recipe::WORDS
    )?;
    show::track(rt, &pack, track)?;
    heal::run(rt, track)
}
