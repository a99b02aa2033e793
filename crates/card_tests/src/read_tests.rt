// Read Data: what comes into storage, and every way in which it ends.
use crate::machine::Spoiled;
use crate::said::Said;
use crate::scenes::{Scene, USUAL, play_scenes};
use drive::defect::Field;
use std::test::Fail;

static READS: [Scene; 12] = [
    Scene {
        name: "one word of sector 5",
        blocks: &[[0x2009, 0, 0, 0, 0x0005, 0, 0x0002, 0x0400]],
        steps: &[Said::Stepped; 2],
        status: [0x0400, 0, 0, 0],
        words: &[(0x03FE, 0x0000), (0x0400, 0x0A00), (0x0402, 0x0000)],
        ..USUAL
    },
    Scene {
        name: "the words of sector 5, all",
        blocks: &[[0x2009, 0, 0, 0, 0x0005, 0, 0x0100, 0x0400]],
        steps: &[Said::Stepped; 2],
        status: [0x04FE, 0, 0, 0],
        words: &[
            (0x0400, 0x0A00),
            (0x0402, 0x0A01),
            (0x04FE, 0x0A7F),
            (0x0500, 0x0000),
        ],
        ..USUAL
    },
    Scene {
        name: "a sector and a word",
        blocks: &[[0x2009, 0, 0, 0, 0x0005, 0, 0x0102, 0x0400]],
        steps: &[Said::Stepped; 3],
        status: [0x0500, 0, 0, 0],
        words: &[(0x04FE, 0x0A7F), (0x0500, 0x0C00), (0x0502, 0x0000)],
        ..USUAL
    },
    Scene {
        name: "sectors 29 and 30, far apart",
        blocks: &[[0x2009, 0, 0, 0, 0x001D, 0, 0x0200, 0x0400]],
        steps: &[Said::Stepped; 3],
        status: [0x05FE, 0, 0, 0],
        words: &[
            (0x0400, 0x3A00),
            (0x04FE, 0x3A7F),
            (0x0500, 0x0100),
            (0x05FE, 0x017F),
        ],
        ..USUAL
    },
    Scene {
        name: "sector 59 to its end",
        blocks: &[[0x2009, 0, 0, 0, 0x003B, 0, 0x0100, 0x0400]],
        steps: &[Said::Stepped; 2],
        status: [0x04FE, 0, 0, 0],
        words: &[(0x0400, 0x3B00), (0x04FE, 0x3B7F)],
        ..USUAL
    },
    Scene {
        name: "past sector 59",
        blocks: &[[0x2009, 0, 0, 0, 0x003B, 0, 0x0102, 0x0400]],
        steps: &[
            Said::Stepped,
            Said::Ended(17, "end of track", "drive", 0x0100, 59),
        ],
        waits: Said::Interrupt(2, 0x8003),
        status: [0x04FE, 0x8000, 0, 0],
        words: &[(0x0400, 0x3B00), (0x04FE, 0x3B7F), (0x0500, 0x0000)],
        ..USUAL
    },
    Scene {
        name: "sectors 58 and 59 and on",
        blocks: &[[0x2009, 0, 0, 0, 0x003A, 0, 0x0202, 0x0400]],
        steps: &[
            Said::Stepped,
            Said::Stepped,
            Said::Ended(17, "end of track", "drive", 0x0100, 59),
        ],
        waits: Said::Interrupt(2, 0x8003),
        status: [0x05FE, 0x8000, 0, 0],
        words: &[
            (0x0400, 0x3900),
            (0x0500, 0x3B00),
            (0x05FE, 0x3B7F),
            (0x0600, 0x0000),
        ],
        ..USUAL
    },
    Scene {
        name: "sector 0 of the last track",
        from: (302, 1),
        blocks: &[[0x2009, 0, 0, 0x012E, 0x0100, 0, 0x0004, 0x0400]],
        steps: &[Said::Stepped; 2],
        status: [0x0402, 0, 0, 0],
        at: (302, 1),
        words: &[(0x0400, 0x0000), (0x0402, 0x0001), (0x0404, 0x0000)],
        ..USUAL
    },
    Scene {
        name: "sector 31 of the last track",
        from: (302, 1),
        blocks: &[[0x2009, 0, 0, 0x012E, 0x011F, 0, 0x0004, 0x0400]],
        steps: &[Said::Stepped; 2],
        status: [0x0402, 0, 0, 0],
        at: (302, 1),
        words: &[(0x0400, 0x0300), (0x0402, 0x0301), (0x0404, 0x0000)],
        ..USUAL
    },
    Scene {
        name: "a zero count looks for no sector",
        blocks: &[[0x2009, 0, 0x0001, 0, 0x0005, 0, 0, 0x0400]],
        steps: &[Said::Stepped; 2],
        status: [0x010E, 0, 0, 0],
        words: &[(0x0400, 0x0000)],
        ..USUAL
    },
    Scene {
        name: "a zero count at sector 59",
        blocks: &[[0x2009, 0, 0, 0, 0x003B, 0, 0, 0x0400]],
        steps: &[Said::Stepped; 2],
        status: [0x010E, 0, 0, 0],
        ..USUAL
    },
    Scene {
        name: "word 1 and the high byte of word 2 do not matter",
        blocks: &[[0x2009, 0xFFFF, 0xFF00, 0, 0x0005, 0, 0x0002, 0x0400]],
        steps: &[Said::Stepped; 2],
        status: [0x0400, 0, 0, 0],
        words: &[(0x0400, 0x0A00)],
        ..USUAL
    },
];

#[test]
fn words_come_in(rt: HostRuntime) -> Result<(), Fail> {
    play_scenes(&rt, rt.alloc(), &READS)
}

static DRIVE_ENDS: [Scene; 11] = [
    Scene {
        name: "another flag",
        blocks: &[[0x2009, 0, 0x0001, 0, 0x0005, 0, 0x0002, 0x0400]],
        steps: &[
            Said::Stepped,
            Said::Ended(15, "no record found", "drive", 0x0100, 5),
        ],
        waits: Said::Interrupt(2, 0x8003),
        status: [0x010E, 0x1000, 0, 0],
        words: &[(0x0400, 0x0000)],
        ..USUAL
    },
    Scene {
        name: "another cylinder",
        blocks: &[[0x2009, 0, 0, 0x0001, 0x0005, 0, 0x0002, 0x0400]],
        steps: &[
            Said::Stepped,
            Said::Ended(15, "no record found", "drive", 0x0100, 5),
        ],
        waits: Said::Interrupt(2, 0x8003),
        status: [0x010E, 0x1000, 0, 0],
        ..USUAL
    },
    Scene {
        name: "the cylinder's high byte",
        blocks: &[[0x2009, 0, 0, 0x0100, 0x0005, 0, 0x0002, 0x0400]],
        steps: &[
            Said::Stepped,
            Said::Ended(15, "no record found", "drive", 0x0100, 5),
        ],
        waits: Said::Interrupt(2, 0x8003),
        status: [0x010E, 0x1000, 0, 0],
        ..USUAL
    },
    Scene {
        name: "another head",
        blocks: &[[0x2009, 0, 0, 0, 0x0105, 0, 0x0002, 0x0400]],
        steps: &[
            Said::Stepped,
            Said::Ended(15, "no record found", "drive", 0x0100, 5),
        ],
        waits: Said::Interrupt(2, 0x8003),
        status: [0x010E, 0x1000, 0, 0],
        ..USUAL
    },
    Scene {
        name: "a spoiled ID is passed, and none found",
        spoiled: &[Spoiled(Field::Id, 0, 0, 10)],
        blocks: &[[0x2009, 0, 0, 0, 0x0005, 0, 0x0002, 0x0400]],
        steps: &[
            Said::Stepped,
            Said::Ended(15, "no record found", "drive", 0x0100, 5),
        ],
        waits: Said::Interrupt(2, 0x8003),
        status: [0x010E, 0x1080, 0, 0],
        ..USUAL
    },
    Scene {
        name: "the last ID of the sixty is spoiled, and none found",
        spoiled: &[Spoiled(Field::Id, 0, 0, 59)],
        blocks: &[[0x2009, 0, 0x0001, 0, 0x0005, 0, 0x0002, 0x0400]],
        steps: &[
            Said::Stepped,
            Said::Ended(15, "no record found", "drive", 0x0100, 5),
        ],
        waits: Said::Interrupt(2, 0x8003),
        status: [0x010E, 0x1080, 0, 0],
        ..USUAL
    },
    Scene {
        name: "spoiled IDs on the way",
        spoiled: &[
            Spoiled(Field::Id, 0, 0, 0),
            Spoiled(Field::Id, 0, 0, 9),
            Spoiled(Field::Id, 0, 0, 11),
        ],
        blocks: &[[0x2009, 0, 0, 0, 0x0005, 0, 0x0002, 0x0400]],
        steps: &[Said::Stepped; 2],
        status: [0x0400, 0, 0, 0],
        words: &[(0x0400, 0x0A00)],
        ..USUAL
    },
    Scene {
        name: "the second sector is not found",
        spoiled: &[Spoiled(Field::Id, 0, 0, 12)],
        blocks: &[[0x2009, 0, 0, 0, 0x0005, 0, 0x0102, 0x0400]],
        steps: &[
            Said::Stepped,
            Said::Stepped,
            Said::Ended(15, "no record found", "drive", 0x0100, 6),
        ],
        waits: Said::Interrupt(2, 0x8003),
        status: [0x04FE, 0x1080, 0, 0],
        words: &[(0x0400, 0x0A00), (0x04FE, 0x0A7F), (0x0500, 0x0000)],
        ..USUAL
    },
    Scene {
        name: "spoiled data",
        spoiled: &[Spoiled(Field::Data, 0, 0, 10)],
        blocks: &[[0x2009, 0, 0, 0, 0x0005, 0, 0x0002, 0x0400]],
        steps: &[
            Said::Stepped,
            Said::Ended(16, "file data check", "drive", 0x0100, 5),
        ],
        waits: Said::Interrupt(2, 0x8003),
        status: [0x010E, 0x0080, 0, 0],
        words: &[(0x0400, 0x0000)],
        ..USUAL
    },
    Scene {
        name: "spoiled data in the second sector",
        spoiled: &[Spoiled(Field::Data, 0, 0, 59)],
        blocks: &[[0x2009, 0, 0, 0, 0x003A, 0, 0x0200, 0x0400]],
        steps: &[
            Said::Stepped,
            Said::Stepped,
            Said::Ended(16, "file data check", "drive", 0x0100, 59),
        ],
        waits: Said::Interrupt(2, 0x8003),
        status: [0x04FE, 0x0080, 0, 0],
        words: &[(0x0400, 0x3900), (0x04FE, 0x397F), (0x0500, 0x0000)],
        ..USUAL
    },
    Scene {
        name: "spoiled data elsewhere",
        spoiled: &[
            Spoiled(Field::Data, 0, 0, 9),
            Spoiled(Field::Data, 0, 0, 11),
            Spoiled(Field::Data, 0, 0, 12),
        ],
        blocks: &[[0x2009, 0, 0, 0, 0x0005, 0, 0x0002, 0x0400]],
        steps: &[Said::Stepped; 2],
        status: [0x0400, 0, 0, 0],
        words: &[(0x0400, 0x0A00)],
        ..USUAL
    },
];

#[test]
fn ends_by_the_drive(rt: HostRuntime) -> Result<(), Fail> {
    play_scenes(&rt, rt.alloc(), &DRIVE_ENDS)
}

static STORAGE_ENDS: [Scene; 12] = [
    Scene {
        name: "the last word of the storage",
        blocks: &[[0x2009, 0, 0, 0, 0x0005, 0, 0x0002, 0xFFFE]],
        steps: &[Said::Stepped; 2],
        status: [0xFFFE, 0, 0, 0],
        words: &[(0xFFFE, 0x0A00)],
        ..USUAL
    },
    Scene {
        name: "one word more",
        blocks: &[[0x2009, 0, 0, 0, 0x0005, 0, 0x0004, 0xFFFE]],
        steps: &[
            Said::Stepped,
            Said::Ended(13, "invalid address", "storage", 0x0100, 0x10000),
        ],
        waits: Said::Interrupt(2, 0x0403),
        status: [0xFFFE, 0, 0, 0],
        words: &[(0xFFFE, 0x0A00)],
        ..USUAL
    },
    Scene {
        name: "a sector up to the end, and one more",
        blocks: &[[0x2009, 0, 0, 0, 0x0005, 0, 0x0102, 0xFF00]],
        steps: &[
            Said::Stepped,
            Said::Stepped,
            Said::Ended(13, "invalid address", "storage", 0x0100, 0x10000),
        ],
        waits: Said::Interrupt(2, 0x0403),
        status: [0xFFFE, 0, 0, 0],
        words: &[(0xFF00, 0x0A00), (0xFFFE, 0x0A7F), (0x0000, 0x0000)],
        ..USUAL
    },
    Scene {
        name: "key 3 in its own block",
        blocks: &[[0x2309, 0, 0, 0, 0x0005, 0, 0x0002, 0x1000]],
        steps: &[Said::Stepped; 2],
        status: [0x1000, 0, 0, 0],
        words: &[(0x1000, 0x0A00)],
        ..USUAL
    },
    Scene {
        name: "key 3 out of its own block",
        blocks: &[[0x2309, 0, 0, 0, 0x0005, 0, 0x0004, 0x17FE]],
        steps: &[
            Said::Stepped,
            Said::Ended(14, "protect check", "storage", 0x0100, 0x1800),
        ],
        waits: Said::Interrupt(2, 0x0203),
        status: [0x17FE, 0, 0, 0],
        words: &[(0x17FE, 0x0A00), (0x1800, 0x0000)],
        ..USUAL
    },
    Scene {
        name: "key 3 into a block of key 0",
        blocks: &[[0x2309, 0, 0, 0, 0x0005, 0, 0x0004, 0x0400]],
        steps: &[
            Said::Stepped,
            Said::Ended(14, "protect check", "storage", 0x0100, 0x0400),
        ],
        waits: Said::Interrupt(2, 0x0203),
        status: [0x010E, 0, 0, 0],
        words: &[(0x0400, 0x0000)],
        ..USUAL
    },
    Scene {
        name: "key 7 at the last word",
        blocks: &[[0x2709, 0, 0, 0, 0x0005, 0, 0x0100, 0xFFFE]],
        steps: &[
            Said::Stepped,
            Said::Ended(14, "protect check", "storage", 0x0100, 0xFFFE),
        ],
        waits: Said::Interrupt(2, 0x0203),
        status: [0x010E, 0, 0, 0],
        words: &[(0xFFFE, 0x0000)],
        ..USUAL
    },
    Scene {
        name: "key 0 opens every block",
        blocks: &[[0x2009, 0, 0, 0, 0x0005, 0, 0x0004, 0x17FE]],
        steps: &[Said::Stepped; 2],
        status: [0x1800, 0, 0, 0],
        words: &[(0x17FE, 0x0A00), (0x1800, 0x0A01)],
        ..USUAL
    },
    Scene {
        name: "the sector is found before the storage is tried",
        blocks: &[[0x2309, 0, 0x0001, 0, 0x0005, 0, 0x0004, 0x0400]],
        steps: &[
            Said::Stepped,
            Said::Ended(15, "no record found", "drive", 0x0100, 5),
        ],
        waits: Said::Interrupt(2, 0x8003),
        status: [0x010E, 0x1000, 0, 0],
        ..USUAL
    },
    Scene {
        name: "the data's condition is tested before the storage",
        spoiled: &[Spoiled(Field::Data, 0, 0, 10)],
        blocks: &[[0x2309, 0, 0, 0, 0x0005, 0, 0x0004, 0x0400]],
        steps: &[
            Said::Stepped,
            Said::Ended(16, "file data check", "drive", 0x0100, 5),
        ],
        waits: Said::Interrupt(2, 0x8003),
        status: [0x010E, 0x0080, 0, 0],
        ..USUAL
    },
    Scene {
        name: "a storage check comes before the end of the track",
        blocks: &[[0x2009, 0, 0, 0, 0x003B, 0, 0x0102, 0xFF02]],
        steps: &[
            Said::Stepped,
            Said::Ended(13, "invalid address", "storage", 0x0100, 0x10000),
        ],
        waits: Said::Interrupt(2, 0x0403),
        status: [0xFFFE, 0, 0, 0],
        words: &[(0xFF02, 0x3B00), (0xFFFE, 0x3B7E)],
        ..USUAL
    },
    Scene {
        name: "a store gives no storage data check",
        marks: &[0x0400],
        blocks: &[[0x2009, 0, 0, 0, 0x0005, 0, 0x0004, 0x0400]],
        steps: &[Said::Stepped; 2],
        status: [0x0402, 0, 0, 0],
        words: &[(0x0402, 0x0A01)],
        ..USUAL
    },
];

#[test]
fn ends_by_the_storage(rt: HostRuntime) -> Result<(), Fail> {
    play_scenes(&rt, rt.alloc(), &STORAGE_ENDS)
}

// Bytes of cylinder 5. Head 0: the first words of places 0 and 1. Head 1: place 7 with the ID X12, 300, 1, 33; place 8
// with the ID 0, 5, 9, 2; place 3 with the ID 0, 5, 1, 59; and the first word of each.
const MOVED: [(usize, u8); 21] = [
    (158408, 0x55),
    (158409, 0x55),
    (158672, 0x66),
    (158673, 0x66),
    (176090, 0x12),
    (176091, 0x01),
    (176092, 0x2C),
    (176093, 0x01),
    (176094, 0x21),
    (176096, 0x77),
    (176097, 0x77),
    (176356, 0x05),
    (176357, 0x09),
    (176358, 0x02),
    (176360, 0x88),
    (176361, 0x88),
    (175036, 0x05),
    (175037, 0x01),
    (175038, 0x3B),
    (175040, 0x99),
    (175041, 0x99),
];

static MOVED_ASIDE: [Scene; 8] = [
    Scene {
        name: "an ID that names cylinder 0, under the heads on 5",
        bytes: &MOVED,
        from: (5, 0),
        blocks: &[[0x2009, 0, 0, 0, 0, 0, 0x0002, 0x0400]],
        steps: &[Said::Stepped; 2],
        status: [0x0400, 0, 0, 0],
        at: (5, 0),
        words: &[(0x0400, 0x5555)],
        ..USUAL
    },
    Scene {
        name: "the ID of the track itself is not there",
        bytes: &MOVED,
        from: (5, 0),
        blocks: &[[0x2009, 0, 0, 0x0005, 0, 0, 0x0002, 0x0400]],
        steps: &[
            Said::Stepped,
            Said::Ended(15, "no record found", "drive", 0x0100, 0),
        ],
        waits: Said::Interrupt(2, 0x8003),
        status: [0x010E, 0x1000, 0, 0],
        at: (5, 0),
        ..USUAL
    },
    Scene {
        name: "of equal IDs the first",
        bytes: &MOVED,
        spoiled: &[Spoiled(Field::Id, 5, 0, 0)],
        from: (5, 0),
        blocks: &[[0x2009, 0, 0, 0, 0, 0, 0x0002, 0x0400]],
        steps: &[Said::Stepped; 2],
        status: [0x0400, 0, 0, 0],
        at: (5, 0),
        words: &[(0x0400, 0x6666)],
        ..USUAL
    },
    Scene {
        name: "flag, cylinder, head and sector of another track",
        bytes: &MOVED,
        from: (5, 1),
        blocks: &[[0x2009, 0, 0xAB12, 0x012C, 0x0121, 0, 0x0002, 0x0400]],
        steps: &[Said::Stepped; 2],
        status: [0x0400, 0, 0, 0],
        at: (5, 1),
        words: &[(0x0400, 0x7777)],
        ..USUAL
    },
    Scene {
        name: "the same without its flag",
        bytes: &MOVED,
        from: (5, 1),
        blocks: &[[0x2009, 0, 0xAB00, 0x012C, 0x0121, 0, 0x0002, 0x0400]],
        steps: &[
            Said::Stepped,
            Said::Ended(15, "no record found", "drive", 0x0100, 33),
        ],
        waits: Said::Interrupt(2, 0x8003),
        status: [0x010E, 0x1000, 0, 0],
        at: (5, 1),
        ..USUAL
    },
    Scene {
        name: "the next sector was not moved",
        bytes: &MOVED,
        from: (5, 1),
        blocks: &[[0x2009, 0, 0x0012, 0x012C, 0x0121, 0, 0x0102, 0x0400]],
        steps: &[
            Said::Stepped,
            Said::Stepped,
            Said::Ended(15, "no record found", "drive", 0x0100, 34),
        ],
        waits: Said::Interrupt(2, 0x8003),
        status: [0x04FE, 0x1000, 0, 0],
        at: (5, 1),
        words: &[(0x0400, 0x7777), (0x0402, 0x0000)],
        ..USUAL
    },
    Scene {
        name: "an ID that names a head which no drive has",
        bytes: &MOVED,
        from: (5, 1),
        blocks: &[[0x2009, 0, 0, 0x0005, 0x0902, 0, 0x0002, 0x0400]],
        steps: &[Said::Stepped; 2],
        status: [0x0400, 0, 0, 0],
        at: (5, 1),
        words: &[(0x0400, 0x8888)],
        ..USUAL
    },
    Scene {
        name: "the end of a track is a matter of numbers, not of places",
        bytes: &MOVED,
        from: (5, 1),
        blocks: &[[0x2009, 0, 0, 0x0005, 0x013B, 0, 0x0102, 0x0400]],
        steps: &[
            Said::Stepped,
            Said::Ended(17, "end of track", "drive", 0x0100, 59),
        ],
        waits: Said::Interrupt(2, 0x8003),
        status: [0x04FE, 0x8000, 0, 0],
        at: (5, 1),
        words: &[(0x0400, 0x9999)],
        ..USUAL
    },
];

#[test]
fn ids_that_name_another_track(rt: HostRuntime) -> Result<(), Fail> {
    play_scenes(&rt, rt.alloc(), &MOVED_ASIDE)
}
