// The check of control blocks: each rule at its edge, the lawful block beside the unlawful one.
use crate::look::{put_block, status};
use crate::machine::{Machine, new_machine};
use crate::said::{NOTHING_WAITS, OK, Said};
use crate::turns::{Ask, expect};
use std::alloc::Global;
use std::process::Abort;
use std::test::Fail;

// A block, and whether it passes.
struct Case(&'static str, [u16; 8], bool);

const SPECIFICATION_CHECK: Said = Said::Ended(11, "specification check", "channel", 0x0100, 0);

// word 0: the bits not in use, the modifier, the input flag, the key
static CONTROL: [Case; 40] = [
    Case("seek", [0x0005, 0, 0, 0, 0, 0, 0, 0], true),
    Case("bit 1", [0x4005, 0, 0, 0, 0, 0, 0, 0], false),
    Case("bit 3", [0x1005, 0, 0, 0, 0, 0, 0, 0], false),
    Case("bit 4", [0x0805, 0, 0, 0, 0, 0, 0, 0], false),
    Case("bit 1 of a read", [0x6009, 0, 0, 0, 0, 0, 2, 0], false),
    Case("bit 3 of a write", [0x1001, 0, 0, 0, 0, 0, 2, 0], false),
    Case("bit 4 of a verify", [0x080C, 0, 0, 0, 0, 0, 2, 0], false),
    Case(
        "bit 1 of a recalibrate",
        [0x4007, 0, 0, 0, 0, 0, 0, 0],
        false,
    ),
    Case("a key in a seek", [0x0705, 0, 0, 0, 0, 0, 0, 0], true),
    Case(
        "a key in a recalibrate",
        [0x0707, 0, 0, 0, 0, 0, 0, 0],
        true,
    ),
    Case("a key in a write", [0x0701, 0, 0, 0, 0, 0, 2, 0], true),
    Case("a key in a read", [0x2709, 0, 0, 0, 0, 0, 2, 0], true),
    Case("a key in a verify", [0x070C, 0, 0, 0, 0, 0, 2, 0], true),
    Case("write", [0x0001, 0, 0, 0, 0, 0, 2, 0], true),
    Case("write, input", [0x2001, 0, 0, 0, 0, 0, 2, 0], false),
    Case("seek, input", [0x2005, 0, 0, 0, 0, 0, 0, 0], false),
    Case("recalibrate", [0x0007, 0, 0, 0, 0, 0, 0, 0], true),
    Case("recalibrate, input", [0x2007, 0, 0, 0, 0, 0, 0, 0], false),
    Case("read", [0x2009, 0, 0, 0, 0, 0, 2, 0], true),
    Case("read, no input", [0x0009, 0, 0, 0, 0, 0, 2, 0], false),
    Case("verify", [0x000C, 0, 0, 0, 0, 0, 2, 0], true),
    Case("verify, input", [0x200C, 0, 0, 0, 0, 0, 2, 0], false),
    Case("modifier X00", [0x0000, 0, 0, 0, 0, 0, 2, 0], false),
    Case("modifier X00, input", [0x2000, 0, 0, 0, 0, 0, 2, 0], false),
    Case("modifier X02", [0x0002, 0, 0, 0, 0, 0, 2, 0], false),
    Case("modifier X03", [0x0003, 0, 0, 0, 0, 0, 2, 0], false),
    Case("modifier X04", [0x0004, 0, 0, 0, 0, 0, 2, 0], false),
    Case("modifier X06", [0x0006, 0, 0, 0, 0, 0, 2, 0], false),
    Case("modifier X08", [0x0008, 0, 0, 0, 0, 0, 2, 0], false),
    Case("modifier X08, input", [0x2008, 0, 0, 0, 0, 0, 2, 0], false),
    Case("modifier X0A, input", [0x200A, 0, 0, 0, 0, 0, 2, 0], false),
    Case("modifier X0B", [0x000B, 0, 0, 0, 0, 0, 2, 0], false),
    Case("modifier X0D", [0x000D, 0, 0, 0, 0, 0, 2, 0], false),
    Case("modifier X0E", [0x000E, 0, 0, 0, 0, 0, 2, 0], false),
    Case("modifier X11", [0x0011, 0, 0, 0, 0, 0, 2, 0], false),
    Case("modifier X25", [0x0025, 0, 0, 0, 0, 0, 2, 0], false),
    Case("modifier X47", [0x0047, 0, 0, 0, 0, 0, 2, 0], false),
    Case("modifier X89, input", [0x2089, 0, 0, 0, 0, 0, 2, 0], false),
    Case("modifier X8C", [0x008C, 0, 0, 0, 0, 0, 2, 0], false),
    Case("modifier XFF", [0x00FF, 0, 0, 0, 0, 0, 2, 0], false),
];

// word 5, in each operation
static CHAIN: [Case; 13] = [
    Case("chaining, even", [0x8007, 0, 0, 0, 0, 0x0110, 0, 0], true),
    Case("chaining, odd", [0x8007, 0, 0, 0, 0, 0x0111, 0, 0], false),
    Case("chaining, zero", [0x8007, 0, 0, 0, 0, 0, 0, 0], true),
    Case("chaining, one", [0x8007, 0, 0, 0, 0, 1, 0, 0], false),
    Case("chaining, XFFFE", [0x8007, 0, 0, 0, 0, 0xFFFE, 0, 0], true),
    Case("chaining, XFFFF", [0x8007, 0, 0, 0, 0, 0xFFFF, 0, 0], false),
    Case("no chaining, odd", [0x0007, 0, 0, 0, 0, 0x0111, 0, 0], true),
    Case("seek, odd", [0x8005, 0, 0, 0, 0, 0x0111, 0, 0], false),
    Case("read, odd", [0xA009, 0, 0, 0, 0, 0x0111, 2, 0], false),
    Case(
        "read of zero, odd",
        [0xA009, 0, 0, 0, 0, 0x0111, 0, 0],
        false,
    ),
    Case(
        "write of zero, odd",
        [0x8001, 0, 0, 0, 0, 0x0111, 0, 0],
        false,
    ),
    Case("write, even", [0x8001, 0, 0, 0, 0, 0x0110, 2, 0], true),
    Case("verify, odd", [0x800C, 0, 0, 0, 0, 0x0111, 2, 0], false),
];

// words 1 and 4 of Seek; that Seek Recalibrate looks at none of them
static MOVES: [Case; 24] = [
    Case("downward", [0x0005, 0x0800, 0, 0, 0, 0, 0, 0], true),
    Case("the most", [0x0005, 0x01FF, 0, 0, 0, 0, 0, 0], true),
    Case(
        "the most downward",
        [0x0005, 0x09FF, 0, 0, 0, 0, 0, 0],
        true,
    ),
    Case("bit 6", [0x0005, 0x0200, 0, 0, 0, 0, 0, 0], false),
    Case("bit 5", [0x0005, 0x0400, 0, 0, 0, 0, 0, 0], false),
    Case("bit 3", [0x0005, 0x1000, 0, 0, 0, 0, 0, 0], false),
    Case("bit 2", [0x0005, 0x2000, 0, 0, 0, 0, 0, 0], false),
    Case("bit 1", [0x0005, 0x4000, 0, 0, 0, 0, 0, 0], false),
    Case("bit 0", [0x0005, 0x8000, 0, 0, 0, 0, 0, 0], false),
    Case("bit 5, downward", [0x0005, 0x0C01, 0, 0, 0, 0, 0, 0], false),
    Case("head 1", [0x0005, 1, 0, 0, 0x0100, 0, 0, 0], true),
    Case("head 2 of two", [0x0005, 1, 0, 0, 0x0200, 0, 0, 0], false),
    Case("head 3", [0x0005, 1, 0, 0, 0x0300, 0, 0, 0], false),
    Case("head 255", [0x0005, 1, 0, 0, 0xFF00, 0, 0, 0], false),
    Case(
        "head 2, down past zero",
        [0x0005, 0x0801, 0, 0, 0x0200, 0, 0, 0],
        false,
    ),
    Case("sector 60", [0x0005, 1, 0, 0, 0x013C, 0, 0, 0], true),
    Case("sector 255", [0x0005, 1, 0, 0, 0x00FF, 0, 0, 0], true),
    Case(
        "odd count and data address",
        [0x0005, 1, 0, 0, 0, 0, 1, 1],
        true,
    ),
    Case(
        "all of words 2 and 3",
        [0x0005, 1, 0xFFFF, 0xFFFF, 0, 0, 0, 0],
        true,
    ),
    Case(
        "recalibrate, word 1",
        [0x0007, 0xFFFF, 0, 0, 0, 0, 0, 0],
        true,
    ),
    Case(
        "recalibrate, head 255",
        [0x0007, 0, 0, 0, 0xFF00, 0, 0, 0],
        true,
    ),
    Case(
        "recalibrate, sector 60",
        [0x0007, 0, 0, 0, 0x003C, 0, 0, 0],
        true,
    ),
    Case(
        "recalibrate, odd count",
        [0x0007, 0, 0, 0, 0, 0, 1, 0],
        true,
    ),
    Case(
        "recalibrate, odd data address",
        [0x0007, 0, 0, 0, 0, 0, 0, 1],
        true,
    ),
];

// words 1, 4, 6 and 7 of the data operations
static DATA: [Case; 42] = [
    Case("read, sector 59", [0x2009, 0, 0, 0, 59, 0, 2, 0], true),
    Case("read, sector 60", [0x2009, 0, 0, 0, 60, 0, 2, 0], false),
    Case("read, sector 255", [0x2009, 0, 0, 0, 255, 0, 2, 0], false),
    Case("read, count 1", [0x2009, 0, 0, 0, 0, 0, 1, 0], false),
    Case(
        "read, count X00FF",
        [0x2009, 0, 0, 0, 0, 0, 0x00FF, 0],
        false,
    ),
    Case(
        "read, count XFFFE",
        [0x2009, 0, 0, 0, 0, 0, 0xFFFE, 0],
        true,
    ),
    Case(
        "read, count XFFFF",
        [0x2009, 0, 0, 0, 0, 0, 0xFFFF, 0],
        false,
    ),
    Case("read, data address 1", [0x2009, 0, 0, 0, 0, 0, 2, 1], false),
    Case(
        "read, data address XFFFE",
        [0x2009, 0, 0, 0, 0, 0, 2, 0xFFFE],
        true,
    ),
    Case(
        "read, data address XFFFF",
        [0x2009, 0, 0, 0, 0, 0, 2, 0xFFFF],
        false,
    ),
    Case("read of zero", [0x2009, 0, 0, 0, 0, 0, 0, 0], true),
    Case(
        "read of zero, sector 59",
        [0x2009, 0, 0, 0, 59, 0, 0, 0],
        true,
    ),
    Case(
        "read of zero, sector 60",
        [0x2009, 0, 0, 0, 60, 0, 0, 0],
        false,
    ),
    Case(
        "read of zero, odd data address",
        [0x2009, 0, 0, 0, 0, 0, 0, 1],
        false,
    ),
    Case("read, word 1", [0x2009, 0xFFFF, 0, 0, 0, 0, 2, 0], true),
    Case("read, head 255", [0x2009, 0, 0, 0, 0xFF00, 0, 2, 0], true),
    Case(
        "read, words 2 and 3",
        [0x2009, 0, 0xFFFF, 0xFFFF, 0, 0, 2, 0],
        true,
    ),
    Case("write, sector 59", [0x0001, 0, 0, 0, 59, 0, 2, 0], true),
    Case("write, sector 60", [0x0001, 0, 0, 0, 60, 0, 2, 0], false),
    Case("write, sector 255", [0x0001, 0, 0, 0, 255, 0, 2, 0], false),
    Case("write, count 1", [0x0001, 0, 0, 0, 0, 0, 1, 0], false),
    Case("write, count 3", [0x0001, 0, 0, 0, 0, 0, 3, 0], false),
    Case(
        "write, count XFFFE",
        [0x0001, 0, 0, 0, 0, 0, 0xFFFE, 0],
        true,
    ),
    Case(
        "write, data address 1",
        [0x0001, 0, 0, 0, 0, 0, 2, 1],
        false,
    ),
    Case(
        "write, data address XFFFF",
        [0x0001, 0, 0, 0, 0, 0, 2, 0xFFFF],
        false,
    ),
    Case("write of zero", [0x0001, 0, 0, 0, 0, 0, 0, 0], true),
    Case(
        "write of zero, sector 60",
        [0x0001, 0, 0, 0, 60, 0, 0, 0],
        false,
    ),
    Case(
        "write of zero, odd data address",
        [0x0001, 0, 0, 0, 0, 0, 0, 1],
        false,
    ),
    Case("write, word 1", [0x0001, 0xFFFF, 0, 0, 0, 0, 2, 0], true),
    Case("write, head 2", [0x0001, 0, 0, 0, 0x0200, 0, 2, 0], true),
    Case("verify, sector 59", [0x000C, 0, 0, 0, 59, 0, 2, 0], true),
    Case("verify, sector 60", [0x000C, 0, 0, 0, 60, 0, 2, 0], false),
    Case("verify, sector 255", [0x000C, 0, 0, 0, 255, 0, 2, 0], false),
    Case("verify, count 0", [0x000C, 0, 0, 0, 0, 0, 0, 0], false),
    Case("verify, count 1", [0x000C, 0, 0, 0, 0, 0, 1, 0], true),
    Case(
        "verify, count X0101",
        [0x000C, 0, 0, 0, 0, 0, 0x0101, 0],
        true,
    ),
    Case(
        "verify, count XFFFF",
        [0x000C, 0, 0, 0, 0, 0, 0xFFFF, 0],
        true,
    ),
    Case(
        "verify, odd data address",
        [0x000C, 0, 0, 0, 0, 0, 2, 1],
        true,
    ),
    Case(
        "verify, data address XFFFF",
        [0x000C, 0, 0, 0, 0, 0, 2, 0xFFFF],
        true,
    ),
    Case("verify, word 1", [0x000C, 0xFFFF, 0, 0, 0, 0, 2, 0], true),
    Case("verify, head 2", [0x000C, 0, 0, 0, 0x0200, 0, 2, 0], true),
    Case(
        "verify of zero, sector 60",
        [0x000C, 0, 0, 0, 60, 0, 0, 0],
        false,
    ),
];

// the check for Start Cycle Steal Status
static STATUS_CASES: [Case; 31] = [
    Case("count 0", [0x2000, 0, 0, 0, 0, 0, 0, 0x0200], false),
    Case("count 1", [0x2000, 0, 0, 0, 0, 0, 1, 0x0200], false),
    Case("count 2", [0x2000, 0, 0, 0, 0, 0, 2, 0x0200], true),
    Case("count 3", [0x2000, 0, 0, 0, 0, 0, 3, 0x0200], false),
    Case("count 4", [0x2000, 0, 0, 0, 0, 0, 4, 0x0200], true),
    Case("count 5", [0x2000, 0, 0, 0, 0, 0, 5, 0x0200], false),
    Case("count 6", [0x2000, 0, 0, 0, 0, 0, 6, 0x0200], true),
    Case("count 7", [0x2000, 0, 0, 0, 0, 0, 7, 0x0200], false),
    Case("count 8", [0x2000, 0, 0, 0, 0, 0, 8, 0x0200], true),
    Case("count 9", [0x2000, 0, 0, 0, 0, 0, 9, 0x0200], false),
    Case("count 10", [0x2000, 0, 0, 0, 0, 0, 10, 0x0200], false),
    Case(
        "count X0102",
        [0x2000, 0, 0, 0, 0, 0, 0x0102, 0x0200],
        false,
    ),
    Case("key 1", [0x2100, 0, 0, 0, 0, 0, 8, 0x0200], true),
    Case("key 7", [0x2700, 0, 0, 0, 0, 0, 8, 0x0200], true),
    Case("no input flag", [0x0000, 0, 0, 0, 0, 0, 8, 0x0200], false),
    Case("bit 0", [0xA000, 0, 0, 0, 0, 0, 8, 0x0200], false),
    Case("bit 1", [0x6000, 0, 0, 0, 0, 0, 8, 0x0200], false),
    Case("bit 3", [0x3000, 0, 0, 0, 0, 0, 8, 0x0200], false),
    Case("bit 4", [0x2800, 0, 0, 0, 0, 0, 8, 0x0200], false),
    Case("bit 8", [0x2080, 0, 0, 0, 0, 0, 8, 0x0200], false),
    Case("bit 12", [0x2008, 0, 0, 0, 0, 0, 8, 0x0200], false),
    Case("bit 15", [0x2001, 0, 0, 0, 0, 0, 8, 0x0200], false),
    Case(
        "a read's modifier",
        [0x2009, 0, 0, 0, 0, 0, 8, 0x0200],
        false,
    ),
    Case(
        "odd data address",
        [0x2000, 0, 0, 0, 0, 0, 8, 0x0201],
        false,
    ),
    Case("data address 0", [0x2000, 0, 0, 0, 0, 0, 8, 0], true),
    Case(
        "data address XFFFF",
        [0x2000, 0, 0, 0, 0, 0, 8, 0xFFFF],
        false,
    ),
    Case("word 1", [0x2000, 0xFFFF, 0, 0, 0, 0, 8, 0x0200], true),
    Case("word 2", [0x2000, 0, 0xFFFF, 0, 0, 0, 8, 0x0200], true),
    Case("word 3", [0x2000, 0, 0, 0xFFFF, 0, 0, 8, 0x0200], true),
    Case("word 4", [0x2000, 0, 0, 0, 0xFFFF, 0, 8, 0x0200], true),
    Case("word 5, odd", [0x2000, 0, 0, 0, 0, 0xFFFF, 8, 0x0200], true),
];

// One block at X0100 under one command: fetched, checked, and dropped again. Status word 0 is what the fetch leaves.
fn check_block(
    rt: &impl Abort,
    machine: &mut Machine,
    command: u16,
    residual: u16,
    case: &Case,
) -> Result<(), Fail> {
    let row = case.0;
    put_block(rt, row, machine, 0x0100, &case.1)?;
    expect(rt, row, machine, Ask::Command(command, 0x0100), OK)?;
    if case.2 {
        expect(rt, row, machine, Ask::Step, Said::Stepped)?;
        expect(rt, row, machine, Ask::Service, NOTHING_WAITS)?;
        expect(rt, row, machine, Ask::Halt, Said::Done)?;
    } else {
        expect(rt, row, machine, Ask::Step, SPECIFICATION_CHECK)?;
        expect(rt, row, machine, Ask::Service, Said::Interrupt(2, 0x1003))?;
    }
    assert_eq!(rt; status(rt, row, machine)?, [residual, 0, 0, 0], "{row}");
    Ok(())
}

fn check_blocks(
    rt: &impl Abort,
    heap: Global,
    command: u16,
    residual: u16,
    cases: &[Case],
) -> Result<(), Fail> {
    let mut machine = new_machine(heap)?;
    expect(rt, "ready", &mut machine, Ask::Ready, Said::Done)?;
    expect(
        rt,
        "prepare",
        &mut machine,
        Ask::Command(0x6003, 0x0001),
        OK,
    )?;
    for case in cases {
        check_block(rt, &mut machine, command, residual, case)?;
    }
    Ok(())
}

#[test]
fn control_word(rt: HostRuntime) -> Result<(), Fail> {
    check_blocks(&rt, rt.alloc(), 0x7003, 0x010E, &CONTROL)
}

#[test]
fn chain_address(rt: HostRuntime) -> Result<(), Fail> {
    check_blocks(&rt, rt.alloc(), 0x7003, 0x010E, &CHAIN)
}

#[test]
fn seek_and_recalibrate(rt: HostRuntime) -> Result<(), Fail> {
    check_blocks(&rt, rt.alloc(), 0x7003, 0x010E, &MOVES)
}

#[test]
fn data_operations(rt: HostRuntime) -> Result<(), Fail> {
    check_blocks(&rt, rt.alloc(), 0x7003, 0x010E, &DATA)
}

#[test]
fn status_blocks(rt: HostRuntime) -> Result<(), Fail> {
    check_blocks(&rt, rt.alloc(), 0x7F03, 0, &STATUS_CASES)
}
