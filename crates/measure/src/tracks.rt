// A plain pack is opened, made fresh throughout, and read by search.
use crate::report::Report;
use anyhow::anyhow;
use drive::defect::{Defect, Field};
use drive::defect_layer::DefectLayer;
use drive::drive::Drive;
use drive::geometry::{CYLINDERS, SECTOR_BYTES, Track};
use drive::search::search;
use drive::sector::SectorId;
use pack::plain_pack::PlainPack;
use std::time::Instant;

// how many cylinders are read, under head 0
const READ: u16 = 100;

const SECTORS: u8 = 60;

const FIRST: Track = Track {
    cylinder: 0,
    head: 0,
};

// Makes every track fresh, and answers how many there were.
fn refresh(pack: &mut PlainPack) -> usize {
    // kept: counted in the loop, since a filter that makes tracks fresh would hide the work
    let mut tracks = 0usize;
    for cylinder in 0..CYLINDERS {
        for head in 0..pack.heads() {
            let refreshed = pack.fresh_track(Track { cylinder, head });
            tracks = tracks.saturating_add(usize::from(refreshed.is_ok()));
        }
    }
    tracks
}

// whether the sector is found by search, is good and holds 256 zeros
fn is_fresh<D: Drive>(drive: &D, track: Track, sector: u8) -> bool {
    let argument = SectorId {
        flag: 0,
        cylinder: track.cylinder,
        head: track.head,
        sector,
    };
    search(drive, track, argument).is_ok_and(|place| {
        drive
            .read(track, place)
            .is_ok_and(|bytes| bytes == [0u8; SECTOR_BYTES].as_slice())
            && drive.data_condition(track, place).is_good()
    })
}

// Reads the sixty sectors of a hundred tracks, and answers how many are good and zero.
fn read_by_search<D: Drive>(drive: &D) -> usize {
    (0..READ).fold(0usize, |fresh, cylinder| {
        let track = Track { cylinder, head: 0 };
        let sectors = (0..SECTORS).filter(|&sector| is_fresh(drive, track, sector));
        fresh.saturating_add(sectors.count())
    })
}

// The pack under a defect layer, in which the data of places 0 to 31 of the first track are marked.
fn spoiled(pack: PlainPack) -> anyhow::Result<DefectLayer<PlainPack>> {
    let mut layer = DefectLayer::new(pack);
    for place in 0u8..32 {
        let defect = Defect {
            field: Field::Data,
            track: FIRST,
            place,
        };
        layer
            .mark(defect)
            .map_err(|_| anyhow!("a mark was refused"))?;
    }
    Ok(layer)
}

fn opened(report: &Report<'_>, size: usize) -> anyhow::Result<PlainPack> {
    let bytes = vec![in report.rt.alloc(); 0u8; size]?;
    let start = Instant::now(report.rt)?;
    let pack = PlainPack::open(bytes).map_err(|_| anyhow!("the pack was refused"))?;
    let heads = usize::from(pack.heads());
    report.tell(start, "opening a plain pack", size, heads, "heads")?;
    Ok(pack)
}

// Reads by search, and tells of it.
fn searched<D: Drive>(
    report: &Report<'_>,
    drive: &D,
    part: &str,
    size: usize,
) -> anyhow::Result<()> {
    let start = Instant::now(report.rt)?;
    let fresh = read_by_search(drive);
    report.tell(start, part, size, fresh, "sectors of good zeros")
}

pub fn whole_pack(report: &Report<'_>, size: usize) -> anyhow::Result<()> {
    let mut pack = opened(report, size)?;
    let start = Instant::now(report.rt)?;
    let tracks = refresh(&mut pack);
    report.tell(start, "making it fresh", size, tracks, "tracks")?;
    searched(report, &pack, "reading 6000 by search", size)?;
    let layer = spoiled(pack)?;
    searched(report, &layer, "the same under 32 data marks", size)
}
