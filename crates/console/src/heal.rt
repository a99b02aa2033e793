// A sector of a chained pack whose data a mark spoils and a write heals.
use crate::show;
use anyhow::anyhow;
use chained_pack::chained::ChainedPack;
use drive::defect::{Defect, Field};
use drive::defect_layer::DefectLayer;
use drive::drive::Drive;
use drive::geometry::{SECTOR_BYTES, Track};
use std::alloc::Global;

// the place that has a record, and one that has none
const RECORDED: u8 = 14;

const EMPTY: u8 = 15;

// The bytes of a pack with one record, of cylinder 12, head 1, place 14: sector 7, all data zero.
// Its track is 12 × 2 + 1, and its chain is that number.
fn one_record(heap: Global) -> anyhow::Result<Vec<u8>> {
    let mut bytes = [0u8; 404];
    bytes[..8].copy_from_slice(b"4962\x02\0\0\x01");
    bytes[59] = 1;
    bytes[139..141].copy_from_slice(&[25, RECORDED]);
    bytes[145..148].copy_from_slice(&[12, 1, 7]);
    Ok(bytes.to_vec(heap)?)
}

fn open(heap: Global) -> anyhow::Result<DefectLayer<ChainedPack>> {
    ChainedPack::open(one_record(heap)?)
        .map(DefectLayer::new)
        .map_err(|_| anyhow!("the chained pack was refused"))
}

pub fn run(rt: &HostRuntime, track: Track) -> anyhow::Result<()> {
    let mut drive = open(rt.alloc())?;
    println!(rt; "a chained pack with one record; a place with none is spoiled and zero")?;
    show::place(rt, &drive, track, RECORDED)?;
    show::place(rt, &drive, track, EMPTY)?;
    let data = Defect {
        field: Field::Data,
        track,
        place: RECORDED,
    };
    drive
        .mark(data)
        .map_err(|_| anyhow!("the mark was refused"))?;
    println!(rt; "a mark spoils the data of place {RECORDED}")?;
    show::place(rt, &drive, track, RECORDED)?;
    drive
        .write(track, RECORDED, &[0x5A; SECTOR_BYTES])
        .map_err(|_| anyhow!("the write was refused"))?;
    println!(rt; "a write heals it")?;
    show::place(rt, &drive, track, RECORDED)
}
