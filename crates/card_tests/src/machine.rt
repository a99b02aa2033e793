// The machine that the tests run: a pack of two heads under a defect layer, and the largest storage, keyed, under a
// parity layer.
use drive::defect::{Defect, Field};
use drive::defect_layer::DefectLayer;
use drive::drive::Drive;
use drive::geometry::Track;
use pack::plain_pack::PlainPack;
use runs::so_far::RunSoFar;
use std::alloc::Global;
use std::test::Fail;
use storage::keyed::Keyed;
use storage::parity::Parity;

pub type Disk = DefectLayer<PlainPack>;

pub type Memory = Parity<Keyed>;

pub type Machine = RunSoFar<Disk, Memory>;

// the device address of every card here
pub const DEVICE: u8 = 0x03;

const TWO_HEADS: usize = 9_599_040;

// A spoiled field, by cylinder, head and place.
pub struct Spoiled(pub Field, pub u16, pub u8, pub u8);

// The tracks that are fresh and filled.
const FIRST: Track = Track {
    cylinder: 0,
    head: 0,
};

const LAST: Track = Track {
    cylinder: 302,
    head: 1,
};

// the data of a filled place: word w of place p is 256 p + w
fn pattern(place: u8) -> [u8; 256] {
    let mut bytes = [place; 256];
    for w in 0..128u8 {
        bytes[2 * w as usize + 1] = w;
    }
    bytes
}

fn fill(pack: &mut PlainPack, track: Track) -> Result<(), Fail> {
    pack.fresh_track(track)?;
    for place in 0..60u8 {
        pack.write(track, place, &pattern(place))?;
    }
    Ok(())
}

// A pack of zeros, some bytes aside, with its first and its last track fresh and filled. On any other track each
// ID is zero: flag, cylinder, head and sector.
pub fn make_disk(heap: Global, bytes: &[(usize, u8)], spoiled: &[Spoiled]) -> Result<Disk, Fail> {
    let mut all = vec![in heap; 0u8; TWO_HEADS]?;
    for (at, byte) in bytes {
        if *at < all.len() {
            all[*at] = *byte;
        }
    }
    let Ok(mut pack) = PlainPack::open(all) else {
        return Err(Fail::new("the pack was refused"));
    };
    fill(&mut pack, FIRST)?;
    fill(&mut pack, LAST)?;
    let mut layer = DefectLayer::new(pack);
    for Spoiled(field, cylinder, head, place) in spoiled {
        let track = Track {
            cylinder: *cylinder,
            head: *head,
        };
        layer.mark(Defect {
            field: *field,
            track,
            place: *place,
        })?;
    }
    Ok(layer)
}

// 65,536 bytes of zeros. Key 3 opens X1000 to X17FF, key 5 opens X1800 to X1FFF, and key 0 opens every word.
pub fn make_memory(heap: Global, marks: &[u32]) -> Result<Memory, Fail> {
    let mut keys = vec![in heap; 0u8; 32]?;
    if keys.len() == 32 {
        keys[2] = 3;
        keys[3] = 5;
    }
    let Ok(keyed) = Keyed::new(vec![in heap; 0u8; 65536]?, keys) else {
        return Err(Fail::new("the storage was refused"));
    };
    let mut layer = Parity::new(keyed);
    for mark in marks {
        layer.mark(*mark)?;
    }
    Ok(layer)
}

// a new card over a sound machine
pub fn new_machine(heap: Global) -> Result<Machine, Fail> {
    Ok(RunSoFar::start(DEVICE, make_disk(heap, &[], &[])?, make_memory(heap, &[])?))
}
