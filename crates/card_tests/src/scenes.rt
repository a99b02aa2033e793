// Tables of chains: what a Start finds, what its steps answer, and what it leaves.
use crate::look::{DataWord, check_data, check_words, position, put_block, status};
use crate::machine::{DEVICE, Machine, Spoiled, make_disk, make_memory};
use crate::said::{OK, Said};
use crate::turns::{Ask, expect};
use runs::so_far::RunSoFar;
use std::alloc::Global;
use std::process::Abort;
use std::test::Fail;

#[derive(Drop)]
pub struct Scene {
    pub name: &'static str,
    // bytes of the pack that are not zero, and what is spoiled
    pub bytes: &'static [(usize, u8)],
    pub spoiled: &'static [Spoiled],
    // the words with a parity mark
    pub marks: &'static [u32],
    // cylinder and head before the Start
    pub from: (u16, u8),
    // words that the processor stores first
    pub stored: &'static [(u32, u16)],
    // the control blocks at X0100, X0110 and so on
    pub blocks: &'static [[u16; 8]],
    // what the steps answer
    pub steps: &'static [Said],
    // the interrupt that then waits
    pub waits: Said,
    // the status words, cylinder and head, and words of storage and of data afterwards
    pub status: [u16; 4],
    pub at: (u16, u8),
    pub words: &'static [(u32, u16)],
    pub data: &'static [DataWord],
}

// a scene without blocks, for the parts that others leave out
pub const USUAL: Scene = Scene {
    name: "",
    bytes: &[],
    spoiled: &[],
    marks: &[],
    from: (0, 0),
    stored: &[],
    blocks: &[],
    steps: &[],
    waits: Said::Interrupt(3, 0x0003),
    status: [0; 4],
    at: (0, 0),
    words: &[],
    data: &[],
};

// Moves the heads by a block at X0040, up from cylinder 0.
fn seek(rt: &impl Abort, row: &str, machine: &mut Machine, to: (u16, u8)) -> Result<(), Fail> {
    let (cylinder, head) = to;
    put_block(
        rt,
        row,
        machine,
        0x0040,
        &[0x0005, cylinder, 0, 0, 256 * u16::from(head), 0, 0, 0],
    )?;
    expect(rt, row, machine, Ask::Command(0x7003, 0x0040), OK)?;
    expect(rt, row, machine, Ask::Step, Said::Stepped)?;
    expect(rt, row, machine, Ask::Step, Said::Stepped)?;
    expect(rt, row, machine, Ask::Service, Said::Interrupt(3, 0x0003))
}

// the machine as the scene finds it: ready, interrupts enabled
fn found(rt: &impl Abort, heap: Global, scene: &Scene) -> Result<Machine, Fail> {
    let row = scene.name;
    let mut machine = RunSoFar::start(
        DEVICE,
        make_disk(heap, scene.bytes, scene.spoiled)?,
        make_memory(heap, scene.marks)?,
    );
    expect(rt, row, &mut machine, Ask::Ready, Said::Done)?;
    expect(rt, row, &mut machine, Ask::Command(0x6003, 0x0001), OK)?;
    if scene.from != (0, 0) {
        seek(rt, row, &mut machine, scene.from)?;
    }
    for (address, word) in scene.stored {
        expect(
            rt,
            row,
            &mut machine,
            Ask::Store(*address, 0, *word),
            Said::Done,
        )?;
    }
    let mut address = 0x0100u16;
    for block in scene.blocks {
        put_block(rt, row, &mut machine, address, block)?;
        address = address.wrapping_add(16);
    }
    Ok(machine)
}

fn play_scene(rt: &impl Abort, heap: Global, scene: &Scene) -> Result<(), Fail> {
    let row = scene.name;
    let mut machine = found(rt, heap, scene)?;
    expect(rt, row, &mut machine, Ask::Command(0x7003, 0x0100), OK)?;
    for said in scene.steps {
        expect(rt, row, &mut machine, Ask::Step, *said)?;
    }
    expect(rt, row, &mut machine, Ask::Service, scene.waits)?;
    assert_eq!(rt; position(&machine), scene.at, "{row}");
    check_words(rt, row, &machine, scene.words)?;
    check_data(rt, row, &machine, scene.data)?;
    assert_eq!(rt; status(rt, row, &mut machine)?, scene.status, "{row}");
    Ok(())
}

pub fn play_scenes(rt: &impl Abort, heap: Global, scenes: &[Scene]) -> Result<(), Fail> {
    for scene in scenes {
        play_scene(rt, heap, scene)?;
    }
    Ok(())
}
