// What the defect layer refuses, what its marks spoil, and what a write through it lifts.
use basics::refusal::Refusal;
use drive::defect::{Defect, Field};
use drive::defect_layer::DefectLayer;
use drive::drive::Drive;
use drive::geometry::Track;
use drive::search::{NoRecord, search};
use drive::sector::{Condition, SectorId};
use pack::plain_pack::PlainPack;
use std::alloc::Global;
use std::process::Abort;
use std::test::Fail;

const TRACK: Track = Track {
    cylinder: 302,
    head: 1,
};

fn id_of(place: u8) -> Defect {
    Defect {
        field: Field::Id,
        track: TRACK,
        place,
    }
}

fn data_of(place: u8) -> Defect {
    Defect {
        field: Field::Data,
        track: TRACK,
        place,
    }
}

fn off(cylinder: u16, head: u8, place: u8) -> Defect {
    Defect {
        field: Field::Data,
        track: Track { cylinder, head },
        place,
    }
}

// a pack of two heads with the last track fresh, under a layer without marks
fn layer(rt: &impl Abort, heap: Global) -> Result<DefectLayer<PlainPack>, Fail> {
    let Ok(mut pack) = PlainPack::open(vec![in heap; 0u8; 9_599_040]?) else {
        return Err(Fail::new("the pack was refused"));
    };
    assert_eq!(rt; pack.fresh_track(TRACK), Ok(()));
    Ok(DefectLayer::new(pack))
}

#[test]
fn marks_and_their_limit(rt: HostRuntime) -> Result<(), Fail> {
    let mut layer = layer(&rt, rt.alloc())?;
    for place in 0u8..16 {
        assert_eq!(rt; layer.mark(id_of(place)), Ok(()));
        assert_eq!(rt; layer.mark(data_of(place)), Ok(()), "a mark of its own");
    }
    assert_eq!(rt; layer.mark(id_of(16)), Err(Refusal::MarksFull));
    assert_eq!(rt;
        layer.mark(id_of(60)),
        Err(Refusal::NoSuchPlace),
        "before marks full"
    );
    assert_eq!(rt; layer.mark(data_of(15)), Ok(()), "again, though full");
    assert_eq!(rt; layer.lift(data_of(16)), Ok(()), "unmarked");
    assert_eq!(rt; layer.mark(id_of(16)), Err(Refusal::MarksFull));
    assert_eq!(rt; layer.lift(id_of(3)), Ok(()));
    assert!(rt; !layer.is_marked(id_of(3)) && layer.is_marked(data_of(3)));
    assert_eq!(rt; layer.mark(id_of(16)), Ok(()), "a freed entry");
    Ok(())
}

#[test]
fn marks_off_the_drive(rt: HostRuntime) -> Result<(), Fail> {
    let mut layer = layer(&rt, rt.alloc())?;
    for (cylinder, head, place) in [(303u16, 0u8, 0u8), (0, 2, 0), (0, 0, 60), (65535, 255, 255)] {
        let defect = off(cylinder, head, place);
        assert_eq!(rt; layer.mark(defect), Err(Refusal::NoSuchPlace));
        assert_eq!(rt; layer.lift(defect), Err(Refusal::NoSuchPlace));
        assert!(rt; !layer.is_marked(defect));
    }
    Ok(())
}

#[test]
fn spoiled_data(rt: HostRuntime) -> Result<(), Fail> {
    let mut layer = layer(&rt, rt.alloc())?;
    assert_eq!(rt; layer.mark(data_of(0)), Ok(()));
    assert_eq!(rt; layer.data_condition(TRACK, 0), Condition::Spoiled);
    assert_eq!(rt; layer.id(TRACK, 0).condition, Condition::Good);
    assert!(rt; layer.read(TRACK, 0).is_ok(), "spoiled data can be read");
    assert_eq!(rt; layer.write(TRACK, 0, &[0x5Au8; 256]), Ok(()));
    assert_eq!(rt; layer.data_condition(TRACK, 0), Condition::Good);
    assert!(rt; !layer.is_marked(data_of(0)), "lifted by the write");
    Ok(())
}

#[test]
fn spoiled_id(rt: HostRuntime) -> Result<(), Fail> {
    let mut layer = layer(&rt, rt.alloc())?;
    assert_eq!(rt; layer.mark(id_of(0)), Ok(()));
    assert_eq!(rt; layer.mark(data_of(0)), Ok(()));
    assert_eq!(rt; layer.id(TRACK, 0).condition, Condition::Spoiled);
    assert_eq!(rt; layer.id(TRACK, 0).id.cylinder, 302, "no byte changes");
    assert!(rt; layer.read(TRACK, 0).is_err());
    assert_eq!(rt;
        layer.write(TRACK, 0, &[0u8; 256]),
        Err(Refusal::NoSuchPlace)
    );
    assert!(rt;
        layer.is_marked(data_of(0)),
        "a refused write lifts nothing"
    );
    let zero = SectorId {
        flag: 0,
        cylinder: 302,
        head: 1,
        sector: 0,
    };
    assert_eq!(rt;
        search(&layer, TRACK, zero),
        Err(NoRecord {
            passed_spoiled: true,
        })
    );
    assert_eq!(rt; layer.lift(id_of(0)), Ok(()));
    assert_eq!(rt; search(&layer, TRACK, zero), Ok(0));
    Ok(())
}
