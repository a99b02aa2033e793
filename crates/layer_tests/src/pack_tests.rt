// What a plain pack refuses, what a fresh track holds, and what a search finds.
use basics::refusal::Refusal;
use drive::drive::Drive;
use drive::geometry::Track;
use drive::search::{NoRecord, search};
use drive::sector::{Condition, SectorId};
use pack::plain_pack::PlainPack;
use std::alloc::Global;
use std::process::Abort;
use std::test::Fail;

const TWO: usize = 9_599_040;

const THREE: usize = 14_398_560;

// Each logical sector with its physical place, as the disk's own chart pairs them.
const CHART: [(u8, u8); 60] = [
    (0x00, 0x00),
    (0x1E, 0x01),
    (0x01, 0x02),
    (0x1F, 0x03),
    (0x02, 0x04),
    (0x20, 0x05),
    (0x03, 0x06),
    (0x21, 0x07),
    (0x04, 0x08),
    (0x22, 0x09),
    (0x05, 0x0A),
    (0x23, 0x0B),
    (0x06, 0x0C),
    (0x24, 0x0D),
    (0x07, 0x0E),
    (0x25, 0x0F),
    (0x08, 0x10),
    (0x26, 0x11),
    (0x09, 0x12),
    (0x27, 0x13),
    (0x0A, 0x14),
    (0x28, 0x15),
    (0x0B, 0x16),
    (0x29, 0x17),
    (0x0C, 0x18),
    (0x2A, 0x19),
    (0x0D, 0x1A),
    (0x2B, 0x1B),
    (0x0E, 0x1C),
    (0x2C, 0x1D),
    (0x0F, 0x1E),
    (0x2D, 0x1F),
    (0x10, 0x20),
    (0x2E, 0x21),
    (0x11, 0x22),
    (0x2F, 0x23),
    (0x12, 0x24),
    (0x30, 0x25),
    (0x13, 0x26),
    (0x31, 0x27),
    (0x14, 0x28),
    (0x32, 0x29),
    (0x15, 0x2A),
    (0x33, 0x2B),
    (0x16, 0x2C),
    (0x34, 0x2D),
    (0x17, 0x2E),
    (0x35, 0x2F),
    (0x18, 0x30),
    (0x36, 0x31),
    (0x19, 0x32),
    (0x37, 0x33),
    (0x1A, 0x34),
    (0x38, 0x35),
    (0x1B, 0x36),
    (0x39, 0x37),
    (0x1C, 0x38),
    (0x3A, 0x39),
    (0x1D, 0x3A),
    (0x3B, 0x3B),
];

// a lawful pack whose IDs and data are good zeros, but for some bytes
fn damaged(
    rt: &impl Abort,
    heap: Global,
    size: usize,
    damage: [(usize, u8); 2],
) -> Result<Result<PlainPack, Refusal>, Fail> {
    let mut bytes = vec![in heap; 0u8; size]?;
    for (at, byte) in damage {
        if at < bytes.len() {
            bytes[at] = byte;
        }
    }
    match PlainPack::open(bytes) {
        Ok(pack) => Ok(Ok(pack)),
        Err(back) => {
            assert!(rt; back.given.len() == size);
            for (at, byte) in damage {
                if at < back.given.len() {
                    assert!(rt; back.given[at] == byte);
                }
            }
            Ok(Err(back.refusal))
        }
    }
}

#[test]
fn openings(rt: HostRuntime) -> Result<(), Fail> {
    let last = TWO - 264;
    let cases = [
        (0usize, [(0usize, 0u8), (0, 0)], 21u8),
        (TWO - 1, [(0, 0), (0, 0)], 21),
        (TWO + 264, [(0, 0), (0, 0)], 21),
        (THREE + 1, [(7, 1), (0, 2)], 21),
        (TWO, [(7, 1), (0, 0)], 22),
        (TWO, [(last + 7, 255), (0, 2)], 22),
        (THREE, [(THREE - 257, 1), (1, 2)], 22),
        (TWO, [(0, 2), (0, 2)], 24),
        (TWO, [(last + 1, 2), (last, 1)], 24),
        (THREE, [(THREE - 264, 255), (0, 1)], 24),
        (TWO, [(0, 1), (last + 1, 1)], 0),
        (THREE, [(6, 99), (THREE - 1, 99)], 0),
    ];
    for (size, damage, number) in cases {
        match damaged(&rt, rt.alloc(), size, damage)? {
            Ok(pack) => assert!(rt; number == 0 && pack.bytes().len() == size),
            Err(refusal) => assert_eq!(rt; refusal.number(), number),
        }
    }
    Ok(())
}

fn fresh(rt: &impl Abort, heap: Global) -> Result<PlainPack, Fail> {
    match damaged(rt, heap, TWO, [(0, 1), (1, 1)])? {
        Ok(pack) => Ok(pack),
        Err(refusal) => Err(Fail::new(refusal.word())),
    }
}

fn sector(track: Track, number: u8) -> SectorId {
    SectorId {
        flag: 0,
        cylinder: track.cylinder,
        head: track.head,
        sector: number,
    }
}

#[test]
fn fresh_track_by_the_chart(rt: HostRuntime) -> Result<(), Fail> {
    let mut pack = fresh(&rt, rt.alloc())?;
    let track = Track {
        cylinder: 302,
        head: 1,
    };
    assert_eq!(rt; pack.fresh_track(track), Ok(()));
    for (logical, physical) in CHART {
        assert_eq!(rt; search(&pack, track, sector(track, logical)), Ok(physical));
        assert_eq!(rt; pack.data_condition(track, physical), Condition::Good);
    }
    for (cylinder, head) in [(303u16, 0u8), (0, 2), (65535, 0), (0, 255)] {
        assert_eq!(rt;
            pack.fresh_track(Track { cylinder, head }),
            Err(Refusal::NoSuchPlace)
        );
    }
    Ok(())
}

#[test]
fn reading_and_writing(rt: HostRuntime) -> Result<(), Fail> {
    let mut pack = fresh(&rt, rt.alloc())?;
    let spoiled = Track {
        cylinder: 0,
        head: 0,
    };
    let track = Track {
        cylinder: 1,
        head: 0,
    };
    let bytes = [0x5Au8; 256];
    assert_eq!(rt; pack.fresh_track(track), Ok(()));
    assert_eq!(rt;
        pack.write(spoiled, 0, &bytes),
        Err(Refusal::NoSuchPlace),
        "a spoiled ID"
    );
    assert!(rt; pack.read(spoiled, 0).is_err());
    assert_eq!(rt;
        pack.write(track, 60, &bytes),
        Err(Refusal::NoSuchPlace),
        "off the drive"
    );
    assert!(rt; pack.read(track, 60).is_err());
    assert_eq!(rt; pack.id(track, 60).condition, Condition::Spoiled);
    assert_eq!(rt; pack.data_condition(track, 60), Condition::Spoiled);
    assert_eq!(rt; pack.write(track, 59, &bytes), Ok(()));
    match pack.read(track, 59) {
        Ok(read) => {
            assert!(rt; read.len() == 256 && read[0] == 0x5A && read[255] == 0x5A);
            Ok(())
        },
        Err(refusal) => Err(Fail::new(refusal.word())),
    }
}

#[test]
fn searches(rt: HostRuntime) -> Result<(), Fail> {
    let pack = fresh(&rt, rt.alloc())?;
    let first = Track {
        cylinder: 0,
        head: 0,
    };
    let second = Track {
        cylinder: 0,
        head: 1,
    };
    let zero = sector(first, 0);
    assert_eq!(rt;
        search(&pack, first, zero),
        Ok(1),
        "place 0 has a spoiled ID, all others have this one"
    );
    assert_eq!(rt;
        search(&pack, second, zero),
        Ok(0),
        "the first of equal IDs"
    );
    assert_eq!(rt;
        search(&pack, first, sector(second, 0)),
        Err(NoRecord {
            passed_spoiled: true,
        })
    );
    assert_eq!(rt;
        search(&pack, second, sector(second, 0)),
        Err(NoRecord {
            passed_spoiled: false,
        })
    );
    let off = Track {
        cylinder: 303,
        head: 0,
    };
    assert_eq!(rt;
        search(&pack, off, zero),
        Err(NoRecord {
            passed_spoiled: true,
        })
    );
    Ok(())
}
