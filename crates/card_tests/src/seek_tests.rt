// Seek and Seek Recalibrate: where the heads end.
use crate::said::Said;
use crate::scenes::{Scene, USUAL, play_scenes};
use std::test::Fail;

const SEEK_CHECK: [Said; 2] = [
    Said::Stepped,
    Said::Ended(18, "seek check", "drive", 0x0100, 0),
];

static SEEKS: [Scene; 20] = [
    Scene {
        name: "up 10 from 10, naming head 1",
        from: (10, 0),
        blocks: &[[0x0005, 0x000A, 0, 0, 0x0100, 0, 0, 0]],
        steps: &[Said::Stepped; 2],
        status: [0x010E, 0, 0, 0],
        at: (20, 1),
        ..USUAL
    },
    Scene {
        name: "up 2 from 300, to the last cylinder",
        from: (300, 1),
        blocks: &[[0x0005, 0x0002, 0, 0, 0x0000, 0, 0, 0]],
        steps: &[Said::Stepped; 2],
        status: [0x010E, 0, 0, 0],
        at: (302, 0),
        ..USUAL
    },
    Scene {
        name: "up 3 from 300, past the last cylinder",
        from: (300, 1),
        blocks: &[[0x0005, 0x0003, 0, 0, 0x0000, 0, 0, 0]],
        steps: &SEEK_CHECK,
        waits: Said::Interrupt(2, 0x8003),
        status: [0x010E, 0x0040, 0, 0],
        at: (300, 1),
        ..USUAL
    },
    Scene {
        name: "up 302 from 0",
        blocks: &[[0x0005, 0x012E, 0, 0, 0x0000, 0, 0, 0]],
        steps: &[Said::Stepped; 2],
        status: [0x010E, 0, 0, 0],
        at: (302, 0),
        ..USUAL
    },
    Scene {
        name: "up 303 from 0",
        blocks: &[[0x0005, 0x012F, 0, 0, 0x0100, 0, 0, 0]],
        steps: &SEEK_CHECK,
        waits: Said::Interrupt(2, 0x8003),
        status: [0x010E, 0x0040, 0, 0],
        at: (0, 0),
        ..USUAL
    },
    Scene {
        name: "up 1 from 302",
        from: (302, 0),
        blocks: &[[0x0005, 0x0001, 0, 0, 0x0100, 0, 0, 0]],
        steps: &SEEK_CHECK,
        waits: Said::Interrupt(2, 0x8003),
        status: [0x010E, 0x0040, 0, 0],
        at: (302, 0),
        ..USUAL
    },
    Scene {
        name: "up 511 from 0",
        from: (0, 1),
        blocks: &[[0x0005, 0x01FF, 0, 0, 0x0000, 0, 0, 0]],
        steps: &SEEK_CHECK,
        waits: Said::Interrupt(2, 0x8003),
        status: [0x010E, 0x0040, 0, 0],
        at: (0, 1),
        ..USUAL
    },
    Scene {
        name: "down 10 from 10, naming head 1",
        from: (10, 0),
        blocks: &[[0x0005, 0x080A, 0, 0, 0x0100, 0, 0, 0]],
        steps: &[Said::Stepped; 2],
        status: [0x010E, 0, 0, 0],
        at: (0, 1),
        ..USUAL
    },
    Scene {
        name: "down 11 from 10, naming head 1",
        from: (10, 0),
        blocks: &[[0x0005, 0x080B, 0, 0, 0x0100, 0, 0, 0]],
        steps: &[Said::Stepped; 2],
        status: [0x010E, 0, 0, 0],
        at: (0, 0),
        ..USUAL
    },
    Scene {
        name: "down 9 from 10, naming head 0",
        from: (10, 1),
        blocks: &[[0x0005, 0x0809, 0, 0, 0x0000, 0, 0, 0]],
        steps: &[Said::Stepped; 2],
        status: [0x010E, 0, 0, 0],
        at: (1, 0),
        ..USUAL
    },
    Scene {
        name: "down 302 from 302, naming head 1",
        from: (302, 0),
        blocks: &[[0x0005, 0x092E, 0, 0, 0x0100, 0, 0, 0]],
        steps: &[Said::Stepped; 2],
        status: [0x010E, 0, 0, 0],
        at: (0, 1),
        ..USUAL
    },
    Scene {
        name: "down 511 from 302, naming head 1",
        from: (302, 1),
        blocks: &[[0x0005, 0x09FF, 0, 0, 0x0100, 0, 0, 0]],
        steps: &[Said::Stepped; 2],
        status: [0x010E, 0, 0, 0],
        at: (0, 0),
        ..USUAL
    },
    Scene {
        name: "down 1 from 0, naming head 1",
        from: (0, 1),
        blocks: &[[0x0005, 0x0801, 0, 0, 0x0100, 0, 0, 0]],
        steps: &[Said::Stepped; 2],
        status: [0x010E, 0, 0, 0],
        at: (0, 0),
        ..USUAL
    },
    Scene {
        name: "up 0 only selects the head",
        from: (10, 0),
        blocks: &[[0x0005, 0x0000, 0, 0, 0x0100, 0, 0, 0]],
        steps: &[Said::Stepped; 2],
        status: [0x010E, 0, 0, 0],
        at: (10, 1),
        ..USUAL
    },
    Scene {
        name: "down 0 only selects the head",
        from: (10, 1),
        blocks: &[[0x0005, 0x0800, 0, 0, 0x0000, 0, 0, 0]],
        steps: &[Said::Stepped; 2],
        status: [0x010E, 0, 0, 0],
        at: (10, 0),
        ..USUAL
    },
    Scene {
        name: "down 0 from 0 selects the head",
        blocks: &[[0x0005, 0x0800, 0, 0, 0x0100, 0, 0, 0]],
        steps: &[Said::Stepped; 2],
        status: [0x010E, 0, 0, 0],
        at: (0, 1),
        ..USUAL
    },
    Scene {
        name: "the sector of word 4 does not matter",
        blocks: &[[0x0005, 0x0001, 0, 0, 0x01FF, 0, 0, 0]],
        steps: &[Said::Stepped; 2],
        status: [0x010E, 0, 0, 0],
        at: (1, 1),
        ..USUAL
    },
    Scene {
        name: "recalibrate from 302",
        from: (302, 1),
        blocks: &[[0x0007, 0x0000, 0, 0, 0x0100, 0, 0, 0]],
        steps: &[Said::Stepped; 2],
        status: [0x010E, 0, 0, 0],
        at: (0, 0),
        ..USUAL
    },
    Scene {
        name: "recalibrate from 0, head 1",
        from: (0, 1),
        blocks: &[[0x0007, 0x09FF, 0, 0, 0x0100, 0, 0, 0]],
        steps: &[Said::Stepped; 2],
        status: [0x010E, 0, 0, 0],
        at: (0, 0),
        ..USUAL
    },
    Scene {
        name: "recalibrate from 0, head 0",
        blocks: &[[0x0007, 0x0003, 0, 0, 0xFFFF, 0, 0, 0]],
        steps: &[Said::Stepped; 2],
        status: [0x010E, 0, 0, 0],
        at: (0, 0),
        ..USUAL
    },
];

#[test]
fn heads_move(rt: HostRuntime) -> Result<(), Fail> {
    play_scenes(&rt, rt.alloc(), &SEEKS)
}
