// The status words: what sets them, what clears them, and what leaves them.
use crate::look::{check_words, put_block, status};
use crate::said::*;
use crate::stages::*;
use crate::turns::{Ask, expect};
use std::alloc::Global;
use std::process::Abort;
use std::test::Fail;

const DEVICE_END: (Ask, Said) = (Ask::Service, Said::Interrupt(3, 0x0003));

const DRIVE_CHECK: (Ask, Said) = (Ask::Service, Said::Interrupt(2, 0x8003));

const ATTENTION: (Ask, Said) = (Ask::Service, Said::Interrupt(4, 0x0003));

const GOOD: (Ask, Said) = (Ask::Step, Said::Stepped);

const ENABLED: (Ask, Said) = (Ask::Command(0x6003, 0x0001), OK);

const RESET: (Ask, Said) = (Ask::Command(0x6F03, 0), OK);

const READY: (Ask, Said) = (Ask::Ready, Said::Done);

const NOT_READY: (Ask, Said) = (Ask::NotReady, Said::Done);

const HALTED: (Ask, Said) = (Ask::Halt, Said::Done);

const SEEK_CHECK: (Ask, Said) = (
    Ask::Step,
    Said::Ended(18, "seek check", "drive", SEEK_303, 0),
);

static BIT_15: [Stage; 16] = [
    Stage("a new card", &[], [0, 0, 0], (0, 0)),
    Stage(
        "no fetch tests readiness",
        &[ENABLED, (Ask::Command(0x7003, RECALIBRATE), OK), GOOD],
        [0x010E, 0, 0],
        (0, 0),
    ),
    Stage(
        "the step after it does",
        &[
            (
                Ask::Step,
                Said::Ended(19, "not ready", "drive", RECALIBRATE, 0),
            ),
            (Ask::Step, IDLE),
            DRIVE_CHECK,
        ],
        [0x010E, 0x0001, 0],
        (0, 0),
    ),
    Stage(
        "a reset while not ready",
        &[RESET],
        [0x010E, 0x0001, 0],
        (0, 0),
    ),
    Stage(
        "a halt while not ready",
        &[HALTED],
        [0x010E, 0x0001, 0],
        (0, 0),
    ),
    Stage(
        "turning ready",
        &[READY, ATTENTION],
        [0x010E, 0x0001, 0],
        (0, 0),
    ),
    Stage(
        "a good seek leaves the bit",
        &[(Ask::Command(0x7003, SEEK_5), OK), GOOD, GOOD, DEVICE_END],
        [0x017E, 0x0001, 0],
        (5, 1),
    ),
    Stage(
        "a good recalibrate leaves it",
        &[
            (Ask::Command(0x7003, RECALIBRATE), OK),
            GOOD,
            GOOD,
            DEVICE_END,
        ],
        [0x010E, 0x0001, 0],
        (0, 0),
    ),
    Stage(
        "a seek check adds its own",
        &[
            (Ask::Command(0x7003, SEEK_303), OK),
            GOOD,
            SEEK_CHECK,
            DRIVE_CHECK,
        ],
        [0x011E, 0x0041, 0],
        (0, 0),
    ),
    Stage(
        "sending status clears nothing",
        &[
            (Ask::Command(0x7F03, SEND_STATUS), OK),
            GOOD,
            GOOD,
            DEVICE_END,
        ],
        [0x011E, 0x0041, 0],
        (0, 0),
    ),
    Stage(
        "a reset while not ready keeps this bit alone",
        &[NOT_READY, RESET],
        [0x011E, 0x0001, 0],
        (0, 0),
    ),
    Stage(
        "both bits again",
        &[
            READY,
            ATTENTION,
            (Ask::Command(0x7003, SEEK_303), OK),
            GOOD,
            SEEK_CHECK,
            DRIVE_CHECK,
        ],
        [0x011E, 0x0041, 0],
        (0, 0),
    ),
    Stage(
        "an accepted start clears the other",
        &[(Ask::Command(0x7003, RECALIBRATE), OK)],
        [0x011E, 0x0001, 0],
        (0, 0),
    ),
    Stage(
        "a reset that finds the unit ready",
        &[RESET],
        [0x011E, 0, 0],
        (0, 0),
    ),
    Stage(
        "the bit once more",
        &[
            NOT_READY,
            (Ask::Command(0x7003, SEEK_5), OK),
            GOOD,
            (Ask::Step, Said::Ended(19, "not ready", "drive", SEEK_5, 0)),
            DRIVE_CHECK,
        ],
        [0x017E, 0x0001, 0],
        (0, 0),
    ),
    Stage(
        "a halt that finds the unit ready",
        &[READY, HALTED, (Ask::Service, NOTHING_WAITS)],
        [0x017E, 0, 0],
        (0, 0),
    ),
];

static CLEARED: [Stage; 9] = [
    Stage(
        "end of track",
        &[
            READY,
            ENABLED,
            (Ask::Command(0x7003, READ_59), OK),
            GOOD,
            (
                Ask::Step,
                Said::Ended(17, "end of track", "drive", READ_59, 59),
            ),
        ],
        [0x06FE, 0x8000, 0],
        (0, 0),
    ),
    Stage(
        "refused starts clear nothing",
        &[
            (Ask::Command(0x7003, READ), BUSY),
            DRIVE_CHECK,
            (Ask::Command(0x7004, READ), NOT_ATTACHED),
            (Ask::BadParity(0x7003, READ), DATA_CHECK),
        ],
        [0x06FE, 0x8000, 0],
        (0, 0),
    ),
    Stage(
        "an accepted one does at once",
        &[(Ask::Command(0x7003, READ_NONE), OK)],
        [0x06FE, 0, 0],
        (0, 0),
    ),
    Stage(
        "no record found",
        &[
            GOOD,
            (
                Ask::Step,
                Said::Ended(15, "no record found", "drive", READ_NONE, 5),
            ),
            DRIVE_CHECK,
        ],
        [0x016E, 0x1000, 0],
        (0, 0),
    ),
    Stage(
        "an accepted start of a seek check",
        &[(Ask::Command(0x7003, SEEK_303), OK), GOOD, SEEK_CHECK],
        [0x011E, 0x0040, 0],
        (0, 0),
    ),
    Stage(
        "a reset drops the interrupt and clears the bits",
        &[RESET, (Ask::Service, NOTHING_WAITS), (Ask::Step, IDLE)],
        [0x011E, 0, 0],
        (0, 0),
    ),
    Stage(
        "a specification check adds no bit, and nothing is fetched at an odd address",
        &[
            (Ask::Command(0x7003, 0x0101), OK),
            (
                Ask::Step,
                Said::Ended(11, "specification check", "channel", 0x0101, 0),
            ),
            (Ask::Service, Said::Interrupt(2, 0x1003)),
        ],
        [0x011E, 0, 0],
        (0, 0),
    ),
    Stage(
        "a halt in the middle of a write",
        &[
            (Ask::Command(0x7003, WRITE), OK),
            GOOD,
            GOOD,
            HALTED,
            (Ask::Step, IDLE),
            (Ask::Service, NOTHING_WAITS),
        ],
        [0x04FE, 0, 0],
        (0, 0),
    ),
    Stage(
        "a reset leaves word 0 and the position",
        &[
            (Ask::Command(0x7003, SEEK_5), OK),
            GOOD,
            GOOD,
            DEVICE_END,
            RESET,
            HALTED,
        ],
        [0x017E, 0, 0],
        (5, 1),
    ),
];

static WORD_2: [Stage; 16] = [
    Stage(
        "between the sectors of a write",
        &[
            READY,
            ENABLED,
            (Ask::Command(0x7003, WRITE), OK),
            GOOD,
            GOOD,
        ],
        [0x04FE, 0, 0],
        (0, 0),
    ),
    Stage("at its end", &[GOOD, DEVICE_END], [0x0500, 0, 7], (0, 0)),
    Stage(
        "an exception of a read leaves it",
        &[
            (Ask::Command(0x7003, READ_59), OK),
            GOOD,
            (
                Ask::Step,
                Said::Ended(17, "end of track", "drive", READ_59, 59),
            ),
            DRIVE_CHECK,
        ],
        [0x06FE, 0x8000, 7],
        (0, 0),
    ),
    Stage(
        "an accepted start leaves it",
        &[(Ask::Command(0x7003, WRITE_ZERO), OK)],
        [0x06FE, 0, 7],
        (0, 0),
    ),
    Stage(
        "a zero count leaves it",
        &[GOOD, GOOD, DEVICE_END],
        [0x013E, 0, 7],
        (0, 0),
    ),
    Stage(
        "a specification check leaves it",
        &[
            (Ask::Command(0x7003, WRITE_60), OK),
            (
                Ask::Step,
                Said::Ended(11, "specification check", "channel", WRITE_60, 0),
            ),
            (Ask::Service, Said::Interrupt(2, 0x1003)),
        ],
        [0x01AE, 0, 7],
        (0, 0),
    ),
    Stage(
        "a write in a chain sets it at its own end",
        &[(Ask::Command(0x7003, WRITE_CHAINED), OK), GOOD, GOOD],
        [0x0400, 0, 8],
        (0, 0),
    ),
    Stage(
        "the chain goes on",
        &[GOOD, GOOD, DEVICE_END],
        [0x010E, 0, 8],
        (0, 0),
    ),
    Stage(
        "not ready after the first block: the fetch of the second does not test it",
        &[
            (Ask::Command(0x7003, WRITE_CHAINED), OK),
            GOOD,
            GOOD,
            NOT_READY,
            GOOD,
            (
                Ask::Step,
                Said::Ended(19, "not ready", "drive", RECALIBRATE, 0),
            ),
            DRIVE_CHECK,
            READY,
            ATTENTION,
        ],
        [0x010E, 0x0001, 8],
        (0, 0),
    ),
    Stage(
        "not ready in the second sector",
        &[
            (Ask::Command(0x7003, WRITE), OK),
            GOOD,
            GOOD,
            NOT_READY,
            (Ask::Step, Said::Ended(19, "not ready", "drive", WRITE, 0)),
            DRIVE_CHECK,
        ],
        [0x04FE, 0x0001, 6],
        (0, 0),
    ),
    Stage(
        "not ready in the first",
        &[
            (Ask::Command(0x7003, WRITE), OK),
            GOOD,
            (Ask::Step, Said::Ended(19, "not ready", "drive", WRITE, 0)),
            DRIVE_CHECK,
        ],
        [0x012E, 0x0001, 5],
        (0, 0),
    ),
    Stage(
        "not ready with a zero count",
        &[
            (Ask::Command(0x7003, WRITE_ZERO), OK),
            GOOD,
            (
                Ask::Step,
                Said::Ended(19, "not ready", "drive", WRITE_ZERO, 0),
            ),
            DRIVE_CHECK,
        ],
        [0x013E, 0x0001, 5],
        (0, 0),
    ),
    Stage(
        "a verify that is not ready",
        &[
            (Ask::Command(0x7003, VERIFY), OK),
            GOOD,
            (Ask::Step, Said::Ended(19, "not ready", "drive", VERIFY, 0)),
            DRIVE_CHECK,
        ],
        [0x01CE, 0x0001, 5],
        (0, 0),
    ),
    Stage(
        "a read that is not ready",
        &[
            (Ask::Command(0x7003, READ), OK),
            GOOD,
            (Ask::Step, Said::Ended(19, "not ready", "drive", READ, 0)),
            DRIVE_CHECK,
        ],
        [0x01BE, 0x0001, 5],
        (0, 0),
    ),
    Stage(
        "the steps of the status command test no readiness",
        &[
            (Ask::Command(0x7F03, SEND_STATUS), OK),
            GOOD,
            GOOD,
            DEVICE_END,
        ],
        [0x01BE, 0x0001, 5],
        (0, 0),
    ),
    Stage("a reset clears it", &[RESET], [0x01BE, 0x0001, 0], (0, 0)),
];

// Every block that can't be fetched whole; word 2 of the status block has a parity mark.
static FETCHES_OF_BLOCKS: [Stage; 8] = [
    Stage(
        "an odd address",
        &[
            READY,
            ENABLED,
            (Ask::Command(0x7003, 0xFFFF), OK),
            (
                Ask::Step,
                Said::Ended(11, "specification check", "channel", 0xFFFF, 0),
            ),
            (Ask::Service, Said::Interrupt(2, 0x1003)),
        ],
        [0, 0, 0],
        (0, 0),
    ),
    Stage(
        "an odd address of a status block",
        &[
            (Ask::Command(0x7F03, 0x0191), OK),
            (
                Ask::Step,
                Said::Ended(11, "specification check", "channel", 0x0191, 0),
            ),
            (Ask::Service, Said::Interrupt(2, 0x1003)),
        ],
        [0, 0, 0],
        (0, 0),
    ),
    Stage(
        "a status block that runs out of the storage",
        &[
            (Ask::Command(0x7F03, 0xFFF2), OK),
            (
                Ask::Step,
                Said::Ended(13, "invalid address", "storage", 0xFFF2, 0x10000),
            ),
            (Ask::Service, Said::Interrupt(2, 0x0403)),
        ],
        [0, 0, 0],
        (0, 0),
    ),
    Stage(
        "a status block with a parity mark",
        &[
            (Ask::Command(0x7F03, SEND_STATUS), OK),
            (
                Ask::Step,
                Said::Ended(12, "storage data check", "storage", SEND_STATUS, 0x0194),
            ),
            (Ask::Service, Said::Interrupt(2, 0x0803)),
        ],
        [0, 0, 0],
        (0, 0),
    ),
    Stage(
        "a block that runs out of the storage",
        &[
            (Ask::Command(0x7003, 0xFFF2), OK),
            (
                Ask::Step,
                Said::Ended(13, "invalid address", "storage", 0xFFF2, 0x10000),
            ),
            (Ask::Service, Said::Interrupt(2, 0x0403)),
        ],
        [0xFFFE, 0, 0],
        (0, 0),
    ),
    Stage(
        "a block whose second word is past the storage",
        &[
            (Ask::Command(0x7003, 0xFFFE), OK),
            (
                Ask::Step,
                Said::Ended(13, "invalid address", "storage", 0xFFFE, 0x10000),
            ),
            (Ask::Service, Said::Interrupt(2, 0x0403)),
        ],
        [0xFFFE, 0, 0],
        (0, 0),
    ),
    Stage(
        "a block at address 0, without an operation",
        &[
            (Ask::Command(0x7003, 0), OK),
            (
                Ask::Step,
                Said::Ended(11, "specification check", "channel", 0, 0),
            ),
            (Ask::Service, Said::Interrupt(2, 0x1003)),
        ],
        [0x000E, 0, 0],
        (0, 0),
    ),
    Stage(
        "the last block of the storage",
        &[
            (Ask::Store(0xFFF0, 0, 0x0007), Said::Done),
            (Ask::Command(0x7003, 0xFFF0), OK),
            GOOD,
            GOOD,
            DEVICE_END,
        ],
        [0xFFFE, 0, 0],
        (0, 0),
    ),
];

// Stores of the processor between steps: a block counts as it was fetched, data as it is when its sector is done.
static BETWEEN: [Stage; 7] = [
    Stage(
        "a fetched block",
        &[READY, ENABLED, (Ask::Command(0x7003, SEEK_5), OK), GOOD],
        [0x017E, 0, 0],
        (0, 0),
    ),
    Stage(
        "stores into it come too late",
        &[
            (Ask::Store(0x0170, 0, 0xFFFF), Said::Done),
            (Ask::Store(0x0172, 0, 9), Said::Done),
            (Ask::Store(0x0178, 0, 0), Said::Done),
            GOOD,
            DEVICE_END,
        ],
        [0x017E, 0, 0],
        (5, 1),
    ),
    Stage(
        "a block that chains to itself",
        &[(Ask::Command(0x7003, SEEK_ON), OK), GOOD, GOOD, GOOD, GOOD],
        [0x018E, 0, 0],
        (7, 0),
    ),
    Stage(
        "is fetched anew each time",
        &[(Ask::Store(0x0182, 0, 10), Said::Done), GOOD, GOOD],
        [0x018E, 0, 0],
        (17, 0),
    ),
    Stage(
        "until a halt",
        &[
            HALTED,
            (Ask::Step, IDLE),
            (Ask::Service, NOTHING_WAITS),
            (Ask::Command(0x7003, RECALIBRATE), OK),
            GOOD,
            GOOD,
            DEVICE_END,
        ],
        [0x010E, 0, 0],
        (0, 0),
    ),
    Stage(
        "data of a write",
        &[
            (Ask::Command(0x7003, WRITE), OK),
            GOOD,
            (Ask::Store(0x0400, 0, 0xAAAA), Said::Done),
            GOOD,
            (Ask::Store(0x0400, 0, 0xBBBB), Said::Done),
            (Ask::Store(0x0500, 0, 0xCCCC), Said::Done),
            GOOD,
            DEVICE_END,
        ],
        [0x0500, 0, 7],
        (0, 0),
    ),
    Stage(
        "read back",
        &[
            (Ask::Command(0x7003, READ), OK),
            GOOD,
            GOOD,
            GOOD,
            DEVICE_END,
        ],
        [0x0700, 0, 7],
        (0, 0),
    ),
];

#[test]
fn not_ready_bit(rt: HostRuntime) -> Result<(), Fail> {
    play_stages(
        &rt,
        rt.alloc(),
        &[],
        &BIT_15,
        &[(0x0300, 0x011E), (0x0302, 0x0041)],
    )
}

#[test]
fn start_clears(rt: HostRuntime) -> Result<(), Fail> {
    play_stages(&rt, rt.alloc(), &[], &CLEARED, &[])
}

#[test]
fn last_sector_of_a_write(rt: HostRuntime) -> Result<(), Fail> {
    play_stages(
        &rt,
        rt.alloc(),
        &[],
        &WORD_2,
        &[(0x0300, 0x01BE), (0x0302, 1), (0x0304, 5)],
    )
}

#[test]
fn fetches(rt: HostRuntime) -> Result<(), Fail> {
    play_stages(&rt, rt.alloc(), &[0x0194], &FETCHES_OF_BLOCKS, &[])
}

#[test]
fn stores_between_steps(rt: HostRuntime) -> Result<(), Fail> {
    play_stages(
        &rt,
        rt.alloc(),
        &[],
        &BETWEEN,
        &[(0x0600, 0xAAAA), (0x0602, 0), (0x0700, 0xCCCC), (0x0702, 0)],
    )
}

// Status sent by a block at X0200, when the words are X012E, X0001, 5 and 0: the block, what the step that sends
// answers, the interrupt, and words of storage afterwards.
struct Sending(&'static str, [u16; 8], Said, Said, &'static [(u32, u16)]);

static SENDINGS: [Sending; 9] = [
    Sending(
        "one word",
        [0x2000, 0, 0, 0, 0, 0, 2, 0x0300],
        Said::Stepped,
        Said::Interrupt(3, 0x0003),
        &[(0x0300, 0x012E), (0x0302, 0xEEEE)],
    ),
    Sending(
        "two words",
        [0x2000, 0, 0, 0, 0, 0, 4, 0x0300],
        Said::Stepped,
        Said::Interrupt(3, 0x0003),
        &[(0x0300, 0x012E), (0x0302, 0x0001), (0x0304, 0xEEEE)],
    ),
    Sending(
        "three words",
        [0x2000, 0, 0, 0, 0, 0, 6, 0x0300],
        Said::Stepped,
        Said::Interrupt(3, 0x0003),
        &[(0x0302, 0x0001), (0x0304, 0x0005), (0x0306, 0xEEEE)],
    ),
    Sending(
        "four words",
        [0x2000, 0, 0, 0, 0, 0, 8, 0x0300],
        Said::Stepped,
        Said::Interrupt(3, 0x0003),
        &[(0x0304, 0x0005), (0x0306, 0x0000), (0x0308, 0xEEEE)],
    ),
    Sending(
        "key 3 in its own block",
        [0x2300, 0, 0, 0, 0, 0, 8, 0x1000],
        Said::Stepped,
        Said::Interrupt(3, 0x0003),
        &[
            (0x1000, 0x012E),
            (0x1002, 0x0001),
            (0x1004, 0x0005),
            (0x1006, 0),
        ],
    ),
    Sending(
        "key 3 out of its own block",
        [0x2300, 0, 0, 0, 0, 0, 8, 0x17FE],
        Said::Ended(14, "protect check", "storage", 0x0200, 0x1800),
        Said::Interrupt(2, 0x0203),
        &[(0x17FE, 0x012E), (0x1800, 0)],
    ),
    Sending(
        "key 3 in a block of key 0",
        [0x2300, 0, 0, 0, 0, 0, 2, 0x0300],
        Said::Ended(14, "protect check", "storage", 0x0200, 0x0300),
        Said::Interrupt(2, 0x0203),
        &[(0x0300, 0xEEEE)],
    ),
    Sending(
        "the last word of the storage",
        [0x2000, 0, 0, 0, 0, 0, 2, 0xFFFE],
        Said::Stepped,
        Said::Interrupt(3, 0x0003),
        &[(0xFFFE, 0x012E)],
    ),
    Sending(
        "past the storage",
        [0x2000, 0, 0, 0, 0, 0, 4, 0xFFFE],
        Said::Ended(13, "invalid address", "storage", 0x0200, 0x10000),
        Said::Interrupt(2, 0x0403),
        &[(0xFFFE, 0x012E)],
    ),
];

// what comes before: a write that was not ready, and five words that are not zero
static BEFORE_SENDING: [(Ask, Said); 10] = [
    ENABLED,
    (Ask::Command(0x7003, WRITE), OK),
    GOOD,
    (Ask::Step, Said::Ended(19, "not ready", "drive", WRITE, 0)),
    DRIVE_CHECK,
    (Ask::Store(0x0300, 0, 0xEEEE), Said::Done),
    (Ask::Store(0x0302, 0, 0xEEEE), Said::Done),
    (Ask::Store(0x0304, 0, 0xEEEE), Said::Done),
    (Ask::Store(0x0306, 0, 0xEEEE), Said::Done),
    (Ask::Store(0x0308, 0, 0xEEEE), Said::Done),
];

fn play_sending(rt: &impl Abort, heap: Global, sending: &Sending) -> Result<(), Fail> {
    let row = sending.0;
    let mut machine = furnished(rt, heap, &[])?;
    for (ask, said) in &BEFORE_SENDING {
        expect(rt, row, &mut machine, *ask, *said)?;
    }
    put_block(rt, row, &mut machine, 0x0200, &sending.1)?;
    expect(rt, row, &mut machine, Ask::Command(0x7F03, 0x0200), OK)?;
    expect(rt, row, &mut machine, Ask::Step, Said::Stepped)?;
    expect(rt, row, &mut machine, Ask::Step, sending.2)?;
    expect(rt, row, &mut machine, Ask::Service, sending.3)?;
    check_words(rt, row, &machine, sending.4)?;
    assert_eq!(rt;
        status(rt, row, &mut machine)?,
        [0x012E, 0x0001, 5, 0],
        "{row}"
    );
    Ok(())
}

#[test]
fn status_is_sent(rt: HostRuntime) -> Result<(), Fail> {
    for sending in &SENDINGS {
        play_sending(&rt, rt.alloc(), sending)?;
    }
    Ok(())
}
