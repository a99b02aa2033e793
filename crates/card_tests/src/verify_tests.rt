// Read Verify: how many sectors it asks for, and every way in which it ends.
use crate::look::DataWord;
use crate::machine::Spoiled;
use crate::said::Said;
use crate::scenes::{Scene, USUAL, play_scenes};
use drive::defect::Field;
use std::test::Fail;

static VERIFIES: [Scene; 15] = [
    Scene {
        name: "one byte asks for a sector",
        blocks: &[[0x000C, 0, 0, 0, 0x0005, 0, 0x0001, 0x0000]],
        steps: &[Said::Stepped; 2],
        status: [0x010E, 0, 0, 0],
        ..USUAL
    },
    Scene {
        name: "X0100 bytes ask for one",
        blocks: &[[0x000C, 0, 0, 0, 0x0005, 0, 0x0100, 0x0000]],
        steps: &[Said::Stepped; 2],
        status: [0x010E, 0, 0, 0],
        ..USUAL
    },
    Scene {
        name: "X0101 bytes ask for two",
        blocks: &[[0x000C, 0, 0, 0, 0x0005, 0, 0x0101, 0x0000]],
        steps: &[Said::Stepped; 3],
        status: [0x010E, 0, 0, 0],
        ..USUAL
    },
    Scene {
        name: "X01FF bytes ask for two",
        blocks: &[[0x000C, 0, 0, 0, 0x0005, 0, 0x01FF, 0x0000]],
        steps: &[Said::Stepped; 3],
        status: [0x010E, 0, 0, 0],
        ..USUAL
    },
    Scene {
        name: "the whole track",
        blocks: &[[0x000C, 0, 0, 0, 0, 0, 0x3C00, 0x0000]],
        steps: &[Said::Stepped; 61],
        status: [0x010E, 0, 0, 0],
        ..USUAL
    },
    Scene {
        name: "sector 59 to its end",
        blocks: &[[0x000C, 0, 0, 0, 0x003B, 0, 0x0100, 0x0000]],
        steps: &[Said::Stepped; 2],
        status: [0x010E, 0, 0, 0],
        ..USUAL
    },
    Scene {
        name: "past sector 59",
        blocks: &[[0x000C, 0, 0, 0, 0x003B, 0, 0x0101, 0x0000]],
        steps: &[
            Said::Stepped,
            Said::Ended(17, "end of track", "drive", 0x0100, 59),
        ],
        waits: Said::Interrupt(2, 0x8003),
        status: [0x010E, 0x8000, 0, 0],
        ..USUAL
    },
    Scene {
        name: "key and data address do not matter",
        blocks: &[[0x070C, 0, 0, 0, 0x0005, 0, 0x0002, 0xFFFF]],
        steps: &[Said::Stepped; 2],
        status: [0x010E, 0, 0, 0],
        ..USUAL
    },
    Scene {
        name: "spoiled data",
        spoiled: &[Spoiled(Field::Data, 0, 0, 10)],
        blocks: &[[0x000C, 0, 0, 0, 0x0005, 0, 0x0001, 0x0000]],
        steps: &[
            Said::Stepped,
            Said::Ended(16, "file data check", "drive", 0x0100, 5),
        ],
        waits: Said::Interrupt(2, 0x8003),
        status: [0x010E, 0x0080, 0, 0],
        ..USUAL
    },
    Scene {
        name: "spoiled data in the second sector",
        spoiled: &[Spoiled(Field::Data, 0, 0, 12)],
        blocks: &[[0x000C, 0, 0, 0, 0x0005, 0, 0x0101, 0x0000]],
        steps: &[
            Said::Stepped,
            Said::Stepped,
            Said::Ended(16, "file data check", "drive", 0x0100, 6),
        ],
        waits: Said::Interrupt(2, 0x8003),
        status: [0x010E, 0x0080, 0, 0],
        ..USUAL
    },
    Scene {
        name: "spoiled data in the sector behind",
        spoiled: &[Spoiled(Field::Data, 0, 0, 12)],
        blocks: &[[0x000C, 0, 0, 0, 0x0005, 0, 0x0100, 0x0000]],
        steps: &[Said::Stepped; 2],
        status: [0x010E, 0, 0, 0],
        ..USUAL
    },
    Scene {
        name: "spoiled data in sector 59, before the end of the track",
        spoiled: &[Spoiled(Field::Data, 0, 0, 59)],
        blocks: &[[0x000C, 0, 0, 0, 0x003B, 0, 0x0101, 0x0000]],
        steps: &[
            Said::Stepped,
            Said::Ended(16, "file data check", "drive", 0x0100, 59),
        ],
        waits: Said::Interrupt(2, 0x8003),
        status: [0x010E, 0x0080, 0, 0],
        ..USUAL
    },
    Scene {
        name: "not found",
        blocks: &[[0x000C, 0, 0, 0x0001, 0x0005, 0, 0x0001, 0x0000]],
        steps: &[
            Said::Stepped,
            Said::Ended(15, "no record found", "drive", 0x0100, 5),
        ],
        waits: Said::Interrupt(2, 0x8003),
        status: [0x010E, 0x1000, 0, 0],
        ..USUAL
    },
    Scene {
        name: "not found, a spoiled ID passed",
        spoiled: &[Spoiled(Field::Id, 0, 0, 10)],
        blocks: &[[0x000C, 0, 0, 0, 0x0005, 0, 0x0001, 0x0000]],
        steps: &[
            Said::Stepped,
            Said::Ended(15, "no record found", "drive", 0x0100, 5),
        ],
        waits: Said::Interrupt(2, 0x8003),
        status: [0x010E, 0x1080, 0, 0],
        ..USUAL
    },
    Scene {
        name: "no word of storage or data changes",
        stored: &[(0x0400, 0x1111)],
        blocks: &[[0x000C, 0, 0, 0, 0x0005, 0, 0x0200, 0x0400]],
        steps: &[Said::Stepped; 3],
        status: [0x010E, 0, 0, 0],
        words: &[(0x0400, 0x1111), (0x0402, 0x0000)],
        data: &[
            DataWord(0, 0, 10, 0, 0x0A00),
            DataWord(0, 0, 12, 127, 0x0C7F),
        ],
        ..USUAL
    },
];

#[test]
fn sectors_are_verified(rt: HostRuntime) -> Result<(), Fail> {
    play_scenes(&rt, rt.alloc(), &VERIFIES)
}
