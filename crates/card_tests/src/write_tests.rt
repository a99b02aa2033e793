// Write Data: what comes into sectors, and every way in which it ends.
use crate::look::DataWord;
use crate::machine::Spoiled;
use crate::said::Said;
use crate::scenes::{Scene, USUAL, play_scenes};
use drive::defect::Field;
use std::test::Fail;

static WRITES: [Scene; 14] = [
    Scene {
        name: "one word to sector 5",
        stored: &[
            (0x0400, 0x1111),
            (0x04FE, 0x2222),
            (0x0500, 0x3333),
            (0x0502, 0x4444),
        ],
        blocks: &[[0x0001, 0, 0, 0, 0x0005, 0, 0x0002, 0x0400]],
        steps: &[Said::Stepped; 2],
        status: [0x0400, 0, 6, 0],
        words: &[(0x0400, 0x1111), (0x04FE, 0x2222)],
        data: &[
            DataWord(0, 0, 10, 0, 0x1111),
            DataWord(0, 0, 10, 1, 0x0000),
            DataWord(0, 0, 10, 127, 0x0000),
            DataWord(0, 0, 9, 0, 0x0900),
            DataWord(0, 0, 11, 0, 0x0B00),
            DataWord(0, 0, 12, 0, 0x0C00),
            DataWord(0, 0, 12, 1, 0x0C01),
        ],
        ..USUAL
    },
    Scene {
        name: "the words of sector 5, all",
        stored: &[
            (0x0400, 0x1111),
            (0x04FE, 0x2222),
            (0x0500, 0x3333),
            (0x0502, 0x4444),
        ],
        blocks: &[[0x0001, 0, 0, 0, 0x0005, 0, 0x0100, 0x0400]],
        steps: &[Said::Stepped; 2],
        status: [0x04FE, 0, 6, 0],
        data: &[
            DataWord(0, 0, 10, 0, 0x1111),
            DataWord(0, 0, 10, 1, 0x0000),
            DataWord(0, 0, 10, 127, 0x2222),
            DataWord(0, 0, 12, 0, 0x0C00),
            DataWord(0, 0, 12, 1, 0x0C01),
        ],
        ..USUAL
    },
    Scene {
        name: "X0102 bytes at sector 5",
        stored: &[
            (0x0400, 0x1111),
            (0x04FE, 0x2222),
            (0x0500, 0x3333),
            (0x0502, 0x4444),
        ],
        blocks: &[[0x0001, 0, 0, 0, 0x0005, 0, 0x0102, 0x0400]],
        steps: &[Said::Stepped; 3],
        status: [0x0500, 0, 7, 0],
        data: &[
            DataWord(0, 0, 10, 0, 0x1111),
            DataWord(0, 0, 10, 1, 0x0000),
            DataWord(0, 0, 10, 127, 0x2222),
            DataWord(0, 0, 12, 0, 0x3333),
            DataWord(0, 0, 12, 1, 0x0000),
            DataWord(0, 0, 12, 127, 0x0000),
        ],
        ..USUAL
    },
    Scene {
        name: "sectors 29 and 30",
        stored: &[
            (0x0400, 0x1111),
            (0x04FE, 0x2222),
            (0x0500, 0x3333),
            (0x0502, 0x4444),
        ],
        blocks: &[[0x0001, 0, 0, 0, 0x001D, 0, 0x0102, 0x0400]],
        steps: &[Said::Stepped; 3],
        status: [0x0500, 0, 31, 0],
        data: &[
            DataWord(0, 0, 58, 0, 0x1111),
            DataWord(0, 0, 1, 0, 0x3333),
            DataWord(0, 0, 1, 1, 0x0000),
        ],
        ..USUAL
    },
    Scene {
        name: "sector 59 to its end",
        stored: &[
            (0x0400, 0x1111),
            (0x04FE, 0x2222),
            (0x0500, 0x3333),
            (0x0502, 0x4444),
        ],
        blocks: &[[0x0001, 0, 0, 0, 0x003B, 0, 0x0100, 0x0400]],
        steps: &[Said::Stepped; 2],
        status: [0x04FE, 0, 60, 0],
        data: &[
            DataWord(0, 0, 59, 0, 0x1111),
            DataWord(0, 0, 59, 127, 0x2222),
        ],
        ..USUAL
    },
    Scene {
        name: "X0102 bytes at sector 59",
        stored: &[
            (0x0400, 0x1111),
            (0x04FE, 0x2222),
            (0x0500, 0x3333),
            (0x0502, 0x4444),
        ],
        blocks: &[[0x0001, 0, 0, 0, 0x003B, 0, 0x0102, 0x0400]],
        steps: &[
            Said::Stepped,
            Said::Ended(17, "end of track", "drive", 0x0100, 59),
        ],
        waits: Said::Interrupt(2, 0x8003),
        status: [0x04FE, 0x8000, 59, 0],
        data: &[
            DataWord(0, 0, 59, 0, 0x1111),
            DataWord(0, 0, 59, 127, 0x2222),
            DataWord(0, 0, 0, 0, 0x0000),
        ],
        ..USUAL
    },
    Scene {
        name: "sector 0",
        stored: &[
            (0x0400, 0x1111),
            (0x04FE, 0x2222),
            (0x0500, 0x3333),
            (0x0502, 0x4444),
        ],
        blocks: &[[0x0001, 0, 0, 0, 0, 0, 0x0002, 0x0400]],
        steps: &[Said::Stepped; 2],
        status: [0x0400, 0, 1, 0],
        data: &[
            DataWord(0, 0, 0, 0, 0x1111),
            DataWord(0, 0, 0, 1, 0x0000),
            DataWord(0, 0, 1, 0, 0x0100),
        ],
        ..USUAL
    },
    Scene {
        name: "the last track alone",
        from: (302, 1),
        stored: &[
            (0x0400, 0x1111),
            (0x04FE, 0x2222),
            (0x0500, 0x3333),
            (0x0502, 0x4444),
        ],
        blocks: &[[0x0001, 0, 0, 0x012E, 0x0105, 0, 0x0002, 0x0400]],
        steps: &[Said::Stepped; 2],
        status: [0x0400, 0, 6, 0],
        at: (302, 1),
        data: &[
            DataWord(302, 1, 10, 0, 0x1111),
            DataWord(302, 1, 10, 1, 0x0000),
            DataWord(0, 0, 10, 0, 0x0A00),
            DataWord(0, 0, 10, 127, 0x0A7F),
        ],
        ..USUAL
    },
    Scene {
        name: "a zero count",
        stored: &[
            (0x0400, 0x1111),
            (0x04FE, 0x2222),
            (0x0500, 0x3333),
            (0x0502, 0x4444),
        ],
        blocks: &[[0x0001, 0, 0, 0, 0x0005, 0, 0, 0x0400]],
        steps: &[Said::Stepped; 2],
        status: [0x010E, 0, 0, 0],
        data: &[
            DataWord(0, 0, 10, 0, 0x0A00),
            DataWord(0, 0, 10, 127, 0x0A7F),
        ],
        ..USUAL
    },
    Scene {
        name: "a zero count looks for no sector",
        stored: &[
            (0x0400, 0x1111),
            (0x04FE, 0x2222),
            (0x0500, 0x3333),
            (0x0502, 0x4444),
        ],
        blocks: &[[0x0001, 0, 0x0001, 0, 0x0005, 0, 0, 0x0400]],
        steps: &[Said::Stepped; 2],
        status: [0x010E, 0, 0, 0],
        ..USUAL
    },
    Scene {
        name: "a zero count after a write",
        stored: &[
            (0x0400, 0x1111),
            (0x04FE, 0x2222),
            (0x0500, 0x3333),
            (0x0502, 0x4444),
        ],
        blocks: &[
            [0x8001, 0, 0, 0, 0x0005, 0x0110, 0x0002, 0x0400],
            [0x0001, 0, 0, 0, 0x0009, 0, 0, 0x0400],
        ],
        steps: &[Said::Stepped; 4],
        status: [0x011E, 0, 6, 0],
        ..USUAL
    },
    Scene {
        name: "spoiled data is made good",
        spoiled: &[Spoiled(Field::Data, 0, 0, 10)],
        stored: &[
            (0x0400, 0x1111),
            (0x04FE, 0x2222),
            (0x0500, 0x3333),
            (0x0502, 0x4444),
        ],
        blocks: &[
            [0x8001, 0, 0, 0, 0x0005, 0x0110, 0x0002, 0x0400],
            [0x2009, 0, 0, 0, 0x0005, 0, 0x0004, 0x0600],
        ],
        steps: &[Said::Stepped; 4],
        status: [0x0602, 0, 6, 0],
        words: &[(0x0600, 0x1111), (0x0602, 0x0000)],
        ..USUAL
    },
    Scene {
        name: "an ID that names another cylinder",
        from: (5, 0),
        stored: &[
            (0x0400, 0x1111),
            (0x04FE, 0x2222),
            (0x0500, 0x3333),
            (0x0502, 0x4444),
        ],
        blocks: &[[0x0001, 0, 0, 0, 0, 0, 0x0002, 0x0400]],
        steps: &[Said::Stepped; 2],
        status: [0x0400, 0, 1, 0],
        at: (5, 0),
        data: &[
            DataWord(5, 0, 0, 0, 0x1111),
            DataWord(5, 0, 1, 0, 0x0000),
            DataWord(0, 0, 0, 1, 0x0001),
        ],
        ..USUAL
    },
    Scene {
        name: "of equal IDs the first that is good",
        spoiled: &[Spoiled(Field::Id, 5, 0, 0)],
        from: (5, 0),
        stored: &[
            (0x0400, 0x1111),
            (0x04FE, 0x2222),
            (0x0500, 0x3333),
            (0x0502, 0x4444),
        ],
        blocks: &[[0x0001, 0, 0, 0, 0, 0, 0x0002, 0x0400]],
        steps: &[Said::Stepped; 2],
        status: [0x0400, 0, 1, 0],
        at: (5, 0),
        data: &[DataWord(5, 0, 1, 0, 0x1111), DataWord(5, 0, 2, 0, 0x0000)],
        ..USUAL
    },
];

#[test]
fn sectors_are_written(rt: HostRuntime) -> Result<(), Fail> {
    play_scenes(&rt, rt.alloc(), &WRITES)
}

static WRITE_ENDS: [Scene; 16] = [
    Scene {
        name: "not found",
        stored: &[
            (0x0400, 0x1111),
            (0x04FE, 0x2222),
            (0x0500, 0x3333),
            (0x0502, 0x4444),
        ],
        blocks: &[[0x0001, 0, 0x0001, 0, 0x0005, 0, 0x0002, 0x0400]],
        steps: &[
            Said::Stepped,
            Said::Ended(15, "no record found", "drive", 0x0100, 5),
        ],
        waits: Said::Interrupt(2, 0x8003),
        status: [0x010E, 0x1000, 5, 0],
        data: &[
            DataWord(0, 0, 10, 0, 0x0A00),
            DataWord(0, 0, 10, 127, 0x0A7F),
        ],
        ..USUAL
    },
    Scene {
        name: "not found, a spoiled ID passed",
        spoiled: &[Spoiled(Field::Id, 0, 0, 10)],
        stored: &[
            (0x0400, 0x1111),
            (0x04FE, 0x2222),
            (0x0500, 0x3333),
            (0x0502, 0x4444),
        ],
        blocks: &[[0x0001, 0, 0, 0, 0x0005, 0, 0x0002, 0x0400]],
        steps: &[
            Said::Stepped,
            Said::Ended(15, "no record found", "drive", 0x0100, 5),
        ],
        waits: Said::Interrupt(2, 0x8003),
        status: [0x010E, 0x1080, 5, 0],
        ..USUAL
    },
    Scene {
        name: "the second sector is not found",
        spoiled: &[Spoiled(Field::Id, 0, 0, 12)],
        stored: &[
            (0x0400, 0x1111),
            (0x04FE, 0x2222),
            (0x0500, 0x3333),
            (0x0502, 0x4444),
        ],
        blocks: &[[0x0001, 0, 0, 0, 0x0005, 0, 0x0102, 0x0400]],
        steps: &[
            Said::Stepped,
            Said::Stepped,
            Said::Ended(15, "no record found", "drive", 0x0100, 6),
        ],
        waits: Said::Interrupt(2, 0x8003),
        status: [0x04FE, 0x1080, 6, 0],
        data: &[
            DataWord(0, 0, 10, 0, 0x1111),
            DataWord(0, 0, 10, 1, 0x0000),
            DataWord(0, 0, 10, 127, 0x2222),
        ],
        ..USUAL
    },
    Scene {
        name: "the storage's end",
        stored: &[
            (0x0400, 0x1111),
            (0x04FE, 0x2222),
            (0x0500, 0x3333),
            (0x0502, 0x4444),
        ],
        blocks: &[[0x0001, 0, 0, 0, 0x0005, 0, 0x0004, 0xFFFE]],
        steps: &[
            Said::Stepped,
            Said::Ended(13, "invalid address", "storage", 0x0100, 0x10000),
        ],
        waits: Said::Interrupt(2, 0x0403),
        status: [0xFFFE, 0, 5, 0],
        data: &[
            DataWord(0, 0, 10, 0, 0x0A00),
            DataWord(0, 0, 10, 127, 0x0A7F),
        ],
        ..USUAL
    },
    Scene {
        name: "the last word of the storage",
        stored: &[(0xFFFE, 0x7777)],
        blocks: &[[0x0001, 0, 0, 0, 0x0005, 0, 0x0002, 0xFFFE]],
        steps: &[Said::Stepped; 2],
        status: [0xFFFE, 0, 6, 0],
        data: &[DataWord(0, 0, 10, 0, 0x7777), DataWord(0, 0, 10, 1, 0x0000)],
        ..USUAL
    },
    Scene {
        name: "the storage's end in the second sector",
        stored: &[(0xFF00, 0x7777)],
        blocks: &[[0x0001, 0, 0, 0, 0x0005, 0, 0x0102, 0xFF00]],
        steps: &[
            Said::Stepped,
            Said::Stepped,
            Said::Ended(13, "invalid address", "storage", 0x0100, 0x10000),
        ],
        waits: Said::Interrupt(2, 0x0403),
        status: [0xFFFE, 0, 6, 0],
        data: &[
            DataWord(0, 0, 10, 0, 0x7777),
            DataWord(0, 0, 10, 1, 0x0000),
            DataWord(0, 0, 12, 0, 0x0C00),
            DataWord(0, 0, 12, 1, 0x0C01),
        ],
        ..USUAL
    },
    Scene {
        name: "key 3 out of its own block",
        blocks: &[[0x0301, 0, 0, 0, 0x0005, 0, 0x0004, 0x17FE]],
        steps: &[
            Said::Stepped,
            Said::Ended(14, "protect check", "storage", 0x0100, 0x1800),
        ],
        waits: Said::Interrupt(2, 0x0203),
        status: [0x17FE, 0, 5, 0],
        data: &[
            DataWord(0, 0, 10, 0, 0x0A00),
            DataWord(0, 0, 10, 127, 0x0A7F),
        ],
        ..USUAL
    },
    Scene {
        name: "key 3 in its own block",
        stored: &[(0x17FE, 0x7777)],
        blocks: &[[0x0301, 0, 0, 0, 0x0005, 0, 0x0002, 0x17FE]],
        steps: &[Said::Stepped; 2],
        status: [0x17FE, 0, 6, 0],
        data: &[DataWord(0, 0, 10, 0, 0x7777), DataWord(0, 0, 10, 1, 0x0000)],
        ..USUAL
    },
    Scene {
        name: "key 5 in a block of key 0",
        stored: &[
            (0x0400, 0x1111),
            (0x04FE, 0x2222),
            (0x0500, 0x3333),
            (0x0502, 0x4444),
        ],
        blocks: &[[0x0501, 0, 0, 0, 0x0005, 0, 0x0002, 0x0400]],
        steps: &[
            Said::Stepped,
            Said::Ended(14, "protect check", "storage", 0x0100, 0x0400),
        ],
        waits: Said::Interrupt(2, 0x0203),
        status: [0x010E, 0, 5, 0],
        data: &[
            DataWord(0, 0, 10, 0, 0x0A00),
            DataWord(0, 0, 10, 127, 0x0A7F),
        ],
        ..USUAL
    },
    Scene {
        name: "a parity mark",
        marks: &[0x0402],
        stored: &[
            (0x0400, 0x1111),
            (0x04FE, 0x2222),
            (0x0500, 0x3333),
            (0x0502, 0x4444),
        ],
        blocks: &[[0x0001, 0, 0, 0, 0x0005, 0, 0x0004, 0x0400]],
        steps: &[
            Said::Stepped,
            Said::Ended(12, "storage data check", "storage", 0x0100, 0x0402),
        ],
        waits: Said::Interrupt(2, 0x0803),
        status: [0x0400, 0, 5, 0],
        data: &[
            DataWord(0, 0, 10, 0, 0x0A00),
            DataWord(0, 0, 10, 127, 0x0A7F),
        ],
        ..USUAL
    },
    Scene {
        name: "a parity mark on the first word",
        marks: &[0x0400],
        stored: &[
            (0x0400, 0x1111),
            (0x04FE, 0x2222),
            (0x0500, 0x3333),
            (0x0502, 0x4444),
        ],
        blocks: &[[0x0001, 0, 0, 0, 0x0005, 0, 0x0004, 0x0400]],
        steps: &[
            Said::Stepped,
            Said::Ended(12, "storage data check", "storage", 0x0100, 0x0400),
        ],
        waits: Said::Interrupt(2, 0x0803),
        status: [0x010E, 0, 5, 0],
        data: &[
            DataWord(0, 0, 10, 0, 0x0A00),
            DataWord(0, 0, 10, 127, 0x0A7F),
        ],
        ..USUAL
    },
    Scene {
        name: "a parity mark behind the last word",
        marks: &[0x0404, 0x03FE],
        stored: &[
            (0x0400, 0x1111),
            (0x04FE, 0x2222),
            (0x0500, 0x3333),
            (0x0502, 0x4444),
        ],
        blocks: &[[0x0001, 0, 0, 0, 0x0005, 0, 0x0004, 0x0400]],
        steps: &[Said::Stepped; 2],
        status: [0x0402, 0, 6, 0],
        data: &[DataWord(0, 0, 10, 0, 0x1111), DataWord(0, 0, 10, 1, 0x0000)],
        ..USUAL
    },
    Scene {
        name: "a parity mark in the second sector",
        marks: &[0x0500],
        stored: &[
            (0x0400, 0x1111),
            (0x04FE, 0x2222),
            (0x0500, 0x3333),
            (0x0502, 0x4444),
        ],
        blocks: &[[0x0001, 0, 0, 0, 0x0005, 0, 0x0102, 0x0400]],
        steps: &[
            Said::Stepped,
            Said::Stepped,
            Said::Ended(12, "storage data check", "storage", 0x0100, 0x0500),
        ],
        waits: Said::Interrupt(2, 0x0803),
        status: [0x04FE, 0, 6, 0],
        data: &[
            DataWord(0, 0, 10, 0, 0x1111),
            DataWord(0, 0, 10, 1, 0x0000),
            DataWord(0, 0, 10, 127, 0x2222),
            DataWord(0, 0, 12, 0, 0x0C00),
            DataWord(0, 0, 12, 1, 0x0C01),
        ],
        ..USUAL
    },
    Scene {
        name: "a parity mark under a protect check",
        marks: &[0x1800],
        blocks: &[[0x0301, 0, 0, 0, 0x0005, 0, 0x0004, 0x17FE]],
        steps: &[
            Said::Stepped,
            Said::Ended(14, "protect check", "storage", 0x0100, 0x1800),
        ],
        waits: Said::Interrupt(2, 0x0203),
        status: [0x17FE, 0, 5, 0],
        ..USUAL
    },
    Scene {
        name: "the sector is found before the storage is tried",
        blocks: &[[0x0001, 0, 0x0001, 0, 0x0005, 0, 0x0004, 0xFFFE]],
        steps: &[
            Said::Stepped,
            Said::Ended(15, "no record found", "drive", 0x0100, 5),
        ],
        waits: Said::Interrupt(2, 0x8003),
        status: [0x010E, 0x1000, 5, 0],
        ..USUAL
    },
    Scene {
        name: "a storage check comes before the end of the track",
        blocks: &[[0x0001, 0, 0, 0, 0x003B, 0, 0x0102, 0xFFFE]],
        steps: &[
            Said::Stepped,
            Said::Ended(13, "invalid address", "storage", 0x0100, 0x10000),
        ],
        waits: Said::Interrupt(2, 0x0403),
        status: [0xFFFE, 0, 59, 0],
        data: &[DataWord(0, 0, 59, 0, 0x3B00)],
        ..USUAL
    },
];

#[test]
fn exceptions_of_writes(rt: HostRuntime) -> Result<(), Fail> {
    play_scenes(&rt, rt.alloc(), &WRITE_ENDS)
}
