// Chains of control blocks, and exceptions in their middle.
use crate::look::DataWord;
use crate::said::Said;
use crate::scenes::{Scene, USUAL, play_scenes};
use std::test::Fail;

static CHAINS: [Scene; 5] = [
    Scene {
        name: "a seek, a recalibrate and a read",
        blocks: &[
            [0x8005, 0x0005, 0, 0, 0x0100, 0x0110, 0, 0x0000],
            [0x8007, 0, 0, 0, 0, 0x0120, 0, 0x0000],
            [0x2009, 0, 0, 0, 0x0005, 0, 0x0002, 0x0600],
        ],
        steps: &[Said::Stepped; 6],
        status: [0x0600, 0, 0, 0],
        words: &[(0x0600, 0x0A00)],
        ..USUAL
    },
    Scene {
        name: "a write, a verify and a read",
        stored: &[(0x0400, 0x1111)],
        blocks: &[
            [0x8001, 0, 0, 0, 0x0005, 0x0110, 0x0002, 0x0400],
            [0x800C, 0, 0, 0, 0x0005, 0x0120, 0x0101, 0x0000],
            [0x2009, 0, 0, 0, 0x0005, 0, 0x0004, 0x0600],
        ],
        steps: &[Said::Stepped; 7],
        status: [0x0602, 0, 6, 0],
        words: &[(0x0600, 0x1111), (0x0602, 0x0000)],
        data: &[DataWord(0, 0, 10, 0, 0x1111), DataWord(0, 0, 12, 0, 0x0C00)],
        ..USUAL
    },
    Scene {
        name: "a seek to the last track and a read there",
        blocks: &[
            [0x8005, 0x012E, 0, 0, 0x0100, 0x0110, 0, 0x0000],
            [0x2009, 0, 0, 0x012E, 0x011F, 0, 0x0002, 0x0600],
        ],
        steps: &[Said::Stepped; 4],
        status: [0x0600, 0, 0, 0],
        at: (302, 1),
        words: &[(0x0600, 0x0300)],
        ..USUAL
    },
    Scene {
        name: "a chain address without the chaining bit",
        blocks: &[
            [0x0005, 0x0005, 0, 0, 0x0100, 0x0110, 0, 0x0000],
            [0x0007, 0, 0, 0, 0, 0, 0, 0x0000],
        ],
        steps: &[Said::Stepped; 2],
        status: [0x010E, 0, 0, 0],
        at: (5, 1),
        ..USUAL
    },
    Scene {
        name: "blocks in storage closed to other keys",
        stored: &[(0x1000, 0x0007)],
        blocks: &[[0x8005, 0x0005, 0, 0, 0x0100, 0x1000, 0, 0x0000]],
        steps: &[Said::Stepped; 4],
        status: [0x100E, 0, 0, 0],
        ..USUAL
    },
];

#[test]
fn chains_of_blocks(rt: HostRuntime) -> Result<(), Fail> {
    play_scenes(&rt, rt.alloc(), &CHAINS)
}

static BROKEN: [Scene; 11] = [
    Scene {
        name: "a seek past the last cylinder after a write",
        stored: &[(0x0400, 0x1111)],
        blocks: &[
            [0x8001, 0, 0, 0, 0x0005, 0x0110, 0x0002, 0x0400],
            [0x8005, 0x012F, 0, 0, 0, 0x0120, 0, 0x0000],
            [0x0007, 0, 0, 0, 0, 0, 0, 0x0000],
        ],
        steps: &[
            Said::Stepped,
            Said::Stepped,
            Said::Stepped,
            Said::Ended(18, "seek check", "drive", 0x0110, 0),
        ],
        waits: Said::Interrupt(2, 0x8003),
        status: [0x011E, 0x0040, 6, 0],
        data: &[DataWord(0, 0, 10, 0, 0x1111)],
        ..USUAL
    },
    Scene {
        name: "a seek stands, the next block fails the check",
        blocks: &[
            [0x8005, 0x0005, 0, 0, 0x0100, 0x0110, 0, 0x0000],
            [0x0001, 0, 0, 0, 0x003C, 0, 0x0002, 0x0400],
        ],
        steps: &[
            Said::Stepped,
            Said::Stepped,
            Said::Ended(11, "specification check", "channel", 0x0110, 0),
        ],
        waits: Said::Interrupt(2, 0x1003),
        status: [0x011E, 0, 0, 0],
        at: (5, 1),
        ..USUAL
    },
    Scene {
        name: "a block without an operation after a write",
        stored: &[(0x0400, 0x1111)],
        blocks: &[
            [0x8001, 0, 0, 0, 0x0005, 0x0110, 0x0002, 0x0400],
            [0x0000, 0, 0, 0, 0, 0, 0, 0x0000],
        ],
        steps: &[
            Said::Stepped,
            Said::Stepped,
            Said::Ended(11, "specification check", "channel", 0x0110, 0),
        ],
        waits: Said::Interrupt(2, 0x1003),
        status: [0x011E, 0, 6, 0],
        data: &[DataWord(0, 0, 10, 0, 0x1111)],
        ..USUAL
    },
    Scene {
        name: "a read that finds no place in storage, then nothing more",
        stored: &[(0x0400, 0x1111)],
        blocks: &[
            [0x8001, 0, 0, 0, 0x0005, 0x0110, 0x0002, 0x0400],
            [0xA009, 0, 0, 0, 0x0006, 0x0120, 0x0004, 0xFFFE],
            [0x0005, 0x0005, 0, 0, 0x0100, 0, 0, 0x0000],
        ],
        steps: &[
            Said::Stepped,
            Said::Stepped,
            Said::Stepped,
            Said::Ended(13, "invalid address", "storage", 0x0110, 0x10000),
        ],
        waits: Said::Interrupt(2, 0x0403),
        status: [0xFFFE, 0, 6, 0],
        words: &[(0xFFFE, 0x0C00)],
        data: &[DataWord(0, 0, 10, 0, 0x1111)],
        ..USUAL
    },
    Scene {
        name: "a second write that fails says so in word 2",
        stored: &[(0x0400, 0x1111)],
        blocks: &[
            [0x8001, 0, 0, 0, 0x0005, 0x0110, 0x0002, 0x0400],
            [0x0001, 0, 0x0001, 0, 0x0021, 0, 0x0002, 0x0400],
        ],
        steps: &[
            Said::Stepped,
            Said::Stepped,
            Said::Stepped,
            Said::Ended(15, "no record found", "drive", 0x0110, 33),
        ],
        waits: Said::Interrupt(2, 0x8003),
        status: [0x011E, 0x1000, 33, 0],
        data: &[DataWord(0, 0, 10, 0, 0x1111)],
        ..USUAL
    },
    Scene {
        name: "the next block runs out of the storage",
        blocks: &[[0x8005, 0x0005, 0, 0, 0x0100, 0xFFF8, 0, 0x0000]],
        steps: &[
            Said::Stepped,
            Said::Stepped,
            Said::Ended(13, "invalid address", "storage", 0xFFF8, 0x10000),
        ],
        waits: Said::Interrupt(2, 0x0403),
        status: [0xFFFE, 0, 0, 0],
        at: (5, 1),
        ..USUAL
    },
    Scene {
        name: "the next block has a parity mark in its fourth word",
        marks: &[0x0116],
        blocks: &[
            [0x8005, 0x0005, 0, 0, 0x0100, 0x0110, 0, 0x0000],
            [0x0007, 0, 0, 0, 0, 0, 0, 0x0000],
        ],
        steps: &[
            Said::Stepped,
            Said::Stepped,
            Said::Ended(12, "storage data check", "storage", 0x0110, 0x0116),
        ],
        waits: Said::Interrupt(2, 0x0803),
        status: [0x0114, 0, 0, 0],
        at: (5, 1),
        ..USUAL
    },
    Scene {
        name: "a parity mark in the first block's first word",
        marks: &[0x0100],
        blocks: &[[0x0007, 0, 0, 0, 0, 0, 0, 0x0000]],
        steps: &[Said::Ended(12, "storage data check", "storage", 0x0100, 0x0100)],
        waits: Said::Interrupt(2, 0x0803),
        status: [0, 0, 0, 0],
        ..USUAL
    },
    Scene {
        name: "a parity mark in the first block's last word",
        marks: &[0x010E],
        blocks: &[[0x0007, 0, 0, 0, 0, 0, 0, 0x0000]],
        steps: &[Said::Ended(12, "storage data check", "storage", 0x0100, 0x010E)],
        waits: Said::Interrupt(2, 0x0803),
        status: [0x010C, 0, 0, 0],
        ..USUAL
    },
    Scene {
        name: "a parity mark behind the block",
        marks: &[0x0110, 0x00FE],
        blocks: &[[0x0007, 0, 0, 0, 0, 0, 0, 0x0000]],
        steps: &[Said::Stepped; 2],
        status: [0x010E, 0, 0, 0],
        ..USUAL
    },
    Scene {
        name: "the fetch comes before the check",
        marks: &[0x010E],
        blocks: &[[0x5800, 0, 0, 0, 0, 0, 0, 0x0000]],
        steps: &[Said::Ended(12, "storage data check", "storage", 0x0100, 0x010E)],
        waits: Said::Interrupt(2, 0x0803),
        status: [0x010C, 0, 0, 0],
        ..USUAL
    },
];

#[test]
fn chains_that_an_exception_ends(rt: HostRuntime) -> Result<(), Fail> {
    play_scenes(&rt, rt.alloc(), &BROKEN)
}
