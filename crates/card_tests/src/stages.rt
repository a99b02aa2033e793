// Tables of stages of one run: calls with their answers, and the status words and the position that they leave.
use crate::look::{check_words, position, put_block};
use crate::machine::{DEVICE, Machine, make_disk, make_memory};
use crate::said::Said;
use crate::turns::{Ask, expect};
use runs::so_far::RunSoFar;
use std::alloc::Global;
use std::process::Abort;
use std::test::Fail;

// A stage by name: its calls, then status words 0 to 2, then cylinder and head.
pub struct Stage(
    pub &'static str,
    pub &'static [(Ask, Said)],
    pub [u16; 3],
    pub (u16, u8),
);

// The control blocks that lie in storage.
pub const RECALIBRATE: u16 = 0x0100;

// past the last cylinder
pub const SEEK_303: u16 = 0x0110;

// X0102 bytes from X0400 to sectors 5 and 6
pub const WRITE: u16 = 0x0120;

// no bytes, sector 9
pub const WRITE_ZERO: u16 = 0x0130;

// one word to sector 7, then RECALIBRATE
pub const WRITE_CHAINED: u16 = 0x0140;

// X0102 bytes of sector 59, to X0600
pub const READ_59: u16 = 0x0150;

// one word of sector 5 with a flag that is not there, to X0600
pub const READ_NONE: u16 = 0x0160;

// up to 5, head 1
pub const SEEK_5: u16 = 0x0170;

// up by 1, head 0, then the same block again
pub const SEEK_ON: u16 = 0x0180;

// eight bytes of status to X0300
pub const SEND_STATUS: u16 = 0x0190;

// one word to sector 60
pub const WRITE_60: u16 = 0x01A0;

// X0102 bytes of sectors 5 and 6, to X0600
pub const READ: u16 = 0x01B0;

// X0101 bytes of sectors 5 and 6
pub const VERIFY: u16 = 0x01C0;

static BLOCKS: [(u16, [u16; 8]); 13] = [
    (RECALIBRATE, [0x0007, 0, 0, 0, 0, 0, 0, 0]),
    (SEEK_303, [0x0005, 303, 0, 0, 0, 0, 0, 0]),
    (WRITE, [0x0001, 0, 0, 0, 5, 0, 0x0102, 0x0400]),
    (WRITE_ZERO, [0x0001, 0, 0, 0, 9, 0, 0, 0x0400]),
    (WRITE_CHAINED, [0x8001, 0, 0, 0, 7, 0x0100, 2, 0x0400]),
    (READ_59, [0x2009, 0, 0, 0, 59, 0, 0x0102, 0x0600]),
    (READ_NONE, [0x2009, 0, 1, 0, 5, 0, 2, 0x0600]),
    (SEEK_5, [0x0005, 5, 0, 0, 0x0100, 0, 0, 0]),
    (SEEK_ON, [0x8005, 1, 0, 0, 0, 0x0180, 0, 0]),
    (SEND_STATUS, [0x2000, 0, 0, 0, 0, 0, 8, 0x0300]),
    (WRITE_60, [0x0001, 0, 0, 0, 60, 0, 2, 0x0400]),
    (READ, [0x2009, 0, 0, 0, 5, 0, 0x0102, 0x0600]),
    (VERIFY, [0x000C, 0, 0, 0, 5, 0, 0x0101, 0]),
];

// a new card, not ready and with interrupts disabled, and the blocks in storage
pub fn furnished(rt: &impl Abort, heap: Global, marks: &[u32]) -> Result<Machine, Fail> {
    let mut machine = RunSoFar::start(
        DEVICE,
        make_disk(heap, &[], &[])?,
        make_memory(heap, marks)?,
    );
    for (address, block) in &BLOCKS {
        put_block(rt, "furnished", &mut machine, *address, block)?;
    }
    Ok(machine)
}

fn play_stage(rt: &impl Abort, machine: &mut Machine, stage: &Stage) -> Result<(), Fail> {
    let row = stage.0;
    for (ask, said) in stage.1 {
        expect(rt, row, machine, *ask, *said)?;
    }
    let card = machine.card();
    assert_eq!(rt;
        [card.residual, card.errors, card.write_sector],
        stage.2,
        "{row}"
    );
    assert_eq!(rt; position(machine), stage.3, "{row}");
    Ok(())
}

// Plays the stages one after another, and looks at words of storage in the end.
pub fn play_stages(
    rt: &impl Abort,
    heap: Global,
    marks: &[u32],
    stages: &[Stage],
    words: &[(u32, u16)],
) -> Result<(), Fail> {
    let mut machine = furnished(rt, heap, marks)?;
    for stage in stages {
        play_stage(rt, &mut machine, stage)?;
    }
    check_words(rt, "in the end", &machine, words)
}
