// The commands, the unit's readiness and the service of interrupts, call by call.
use crate::look::position;
use crate::machine::new_machine;
use crate::said::*;
use crate::turns::*;
use std::test::Fail;

static FREE: [Turn; 18] = [
    Turn("read device ID", Ask::Command(0x2003, 0xFFFF), TWO_HEADS),
    Turn("prepare", Ask::Command(0x6003, 0x0007), OK),
    Turn("device reset", Ask::Command(0x6F03, 0), OK),
    Turn("another device", Ask::Command(0x2002, 0), NOT_ATTACHED),
    Turn("device 0", Ask::Command(0x2000, 0), NOT_ATTACHED),
    Turn(
        "another device, parity",
        Ask::BadParity(0x2002, 0),
        NOT_ATTACHED,
    ),
    Turn(
        "another device, unknown",
        Ask::Command(0x0083, 0),
        NOT_ATTACHED,
    ),
    Turn("bad parity", Ask::BadParity(0x2003, 0), DATA_CHECK),
    Turn("bad parity, reset", Ask::BadParity(0x6F03, 0), DATA_CHECK),
    Turn("bad parity, unknown", Ask::BadParity(0x0003, 0), DATA_CHECK),
    Turn("unknown, X00", Ask::Command(0x0003, 0), REJECT),
    Turn("unknown, X21", Ask::Command(0x2103, 0), REJECT),
    Turn("unknown, X61", Ask::Command(0x6103, 0), REJECT),
    Turn("unknown, X6E", Ask::Command(0x6E03, 0), REJECT),
    Turn("unknown, X71", Ask::Command(0x7103, 0), REJECT),
    Turn("unknown, X7E", Ask::Command(0x7E03, 0), REJECT),
    Turn("unknown, XFF", Ask::Command(0xFF03, 0), REJECT),
    Turn("start, not ready, odd", Ask::Command(0x7003, 0x0101), OK),
];

static UNDER_WAY: [Turn; 22] = [
    Turn("start", Ask::Command(0x7003, 0x0100), OK),
    Turn(
        "read device ID while busy",
        Ask::Command(0x2003, 0),
        TWO_HEADS,
    ),
    Turn("prepare while busy", Ask::Command(0x6003, 1), OK),
    Turn("start while busy", Ask::Command(0x7003, 0x0100), BUSY),
    Turn("status while busy", Ask::Command(0x7F03, 0x0100), BUSY),
    Turn("unknown while busy", Ask::Command(0x0003, 0), BUSY),
    Turn("parity before busy", Ask::BadParity(0x7003, 0), DATA_CHECK),
    Turn("device before busy", Ask::Command(0x7004, 0), NOT_ATTACHED),
    Turn("nothing waits yet", Ask::Service, NOTHING_WAITS),
    Turn("reset while busy", Ask::Command(0x6F03, 0), OK),
    Turn("the operation is gone", Ask::Step, IDLE),
    Turn("unknown when free", Ask::Command(0x0003, 0), REJECT),
    Turn("status command", Ask::Command(0x7F03, 0x0100), OK),
    Turn("start while it goes on", Ask::Command(0x7003, 0x0100), BUSY),
    Turn(
        "status while it goes on",
        Ask::Command(0x7F03, 0x0100),
        BUSY,
    ),
    Turn("unknown while it goes on", Ask::Command(0x8003, 0), BUSY),
    Turn("halt", Ask::Halt, Said::Done),
    Turn("the status command is gone", Ask::Step, IDLE),
    Turn("halt when free", Ask::Halt, Said::Done),
    Turn("start when free", Ask::Command(0x7003, 0x0100), OK),
    Turn("halt again", Ask::Halt, Said::Done),
    Turn("no interrupt of it", Ask::Service, NOTHING_WAITS),
];

static WAITING: [Turn; 22] = [
    Turn("prepare", Ask::Command(0x6003, 0x0001), OK),
    Turn("nothing waits", Ask::Service, NOTHING_WAITS),
    Turn("ready", Ask::Ready, Said::Done),
    Turn("read device ID", Ask::Command(0x2003, 0), TWO_HEADS),
    Turn("start", Ask::Command(0x7003, 0x0100), BUSY),
    Turn("status", Ask::Command(0x7F03, 0x0100), BUSY),
    Turn("unknown", Ask::Command(0xFF03, 0), BUSY),
    Turn("a step while attention waits", Ask::Step, IDLE),
    Turn("disabled", Ask::Command(0x6003, 0x001E), OK),
    Turn("no service", Ask::Service, NOTHING_WAITS),
    Turn("it goes on waiting", Ask::Command(0x7003, 0x0100), BUSY),
    Turn("enabled", Ask::Command(0x6003, 0x001F), OK),
    Turn("attention", Ask::Service, ATTENTION),
    Turn("once", Ask::Service, NOTHING_WAITS),
    Turn("free", Ask::Command(0x7003, 0x0100), OK),
    Turn("no operation there", Ask::Step, ELEVEN),
    Turn("a step while an exception waits", Ask::Step, IDLE),
    Turn("start while it waits", Ask::Command(0x7003, 0x0100), BUSY),
    Turn("exception", Ask::Service, Said::Interrupt(2, 0x1003)),
    Turn("exception, once", Ask::Service, NOTHING_WAITS),
    Turn("nothing under way", Ask::Step, IDLE),
    Turn("start again", Ask::Command(0x7003, 0x0100), OK),
];

static READINESS: [Turn; 33] = [
    Turn("ready while disabled", Ask::Ready, Said::Done),
    Turn("enabled too late", Ask::Command(0x6003, 0x0001), OK),
    Turn("missed", Ask::Service, NOTHING_WAITS),
    Turn("ready already", Ask::Ready, Said::Done),
    Turn("says nothing", Ask::Service, NOTHING_WAITS),
    Turn("not ready", Ask::NotReady, Said::Done),
    Turn("gives no interrupt", Ask::Service, NOTHING_WAITS),
    Turn("not ready already", Ask::NotReady, Said::Done),
    Turn("turns ready", Ask::Ready, Said::Done),
    Turn("turns not ready", Ask::NotReady, Said::Done),
    Turn("turns ready while busy", Ask::Ready, Said::Done),
    Turn("one attention", Ask::Service, ATTENTION),
    Turn("not two", Ask::Service, NOTHING_WAITS),
    Turn("not ready before a start", Ask::NotReady, Said::Done),
    Turn("start", Ask::Command(0x7003, 0x0100), OK),
    Turn("ready while an operation goes on", Ask::Ready, Said::Done),
    Turn("no attention", Ask::Service, NOTHING_WAITS),
    Turn("halt", Ask::Halt, Said::Done),
    Turn("nor later", Ask::Service, NOTHING_WAITS),
    Turn("not ready before a reset", Ask::NotReady, Said::Done),
    Turn("attention comes", Ask::Ready, Said::Done),
    Turn("reset", Ask::Command(0x6F03, 0), OK),
    Turn(
        "attention is dropped by a reset",
        Ask::Service,
        NOTHING_WAITS,
    ),
    Turn("not ready before a halt", Ask::NotReady, Said::Done),
    Turn("attention comes again", Ask::Ready, Said::Done),
    Turn("another halt", Ask::Halt, Said::Done),
    Turn(
        "attention is dropped by a halt",
        Ask::Service,
        NOTHING_WAITS,
    ),
    Turn("not ready once more", Ask::NotReady, Said::Done),
    Turn("attention comes once more", Ask::Ready, Said::Done),
    Turn("not ready while it waits", Ask::NotReady, Said::Done),
    Turn("drops nothing", Ask::Service, ATTENTION),
    Turn("reset leaves readiness", Ask::Command(0x6F03, 0), OK),
    Turn("still not ready", Ask::NotReady, Said::Done),
];

// an operation that begins and ends while interrupts are disabled, and whose unit is not ready for a while
static DISABLED: [Turn; 16] = [
    Turn("ready", Ask::Ready, Said::Done),
    Turn("a recalibrate", Ask::Store(0x0100, 0, 0x0007), Said::Done),
    Turn("nothing under way", Ask::Step, IDLE),
    Turn("start", Ask::Command(0x7003, 0x0100), OK),
    Turn("not ready during the fetch", Ask::NotReady, Said::Done),
    Turn("fetch", Ask::Step, Said::Stepped),
    Turn("ready again", Ask::Ready, Said::Done),
    Turn("move", Ask::Step, Said::Stepped),
    Turn("a step while device end waits", Ask::Step, IDLE),
    Turn("disabled", Ask::Service, NOTHING_WAITS),
    Turn("busy", Ask::Command(0x7F03, 0x0100), BUSY),
    Turn("enabled", Ask::Command(0x6003, 0x0001), OK),
    Turn("device end", Ask::Service, Said::Interrupt(3, 0x0003)),
    Turn("once", Ask::Service, NOTHING_WAITS),
    Turn("over", Ask::Step, IDLE),
    Turn("free", Ask::Command(0x7F03, 0x0100), OK),
];

static STORES: [Turn; 18] = [
    Turn("address 0", Ask::Store(0, 0, 1), Said::Done),
    Turn("the last word", Ask::Store(0xFFFE, 0, 1), Said::Done),
    Turn("past it", Ask::Store(0x10000, 0, 1), NO_WORD),
    Turn("far past it", Ask::Store(0xFFFF_FFFE, 0, 1), NO_WORD),
    Turn("odd", Ask::Store(0x0001, 0, 1), NO_WORD),
    Turn("odd, the last", Ask::Store(0xFFFF, 0, 1), NO_WORD),
    Turn("key 3 in its block", Ask::Store(0x1000, 3, 1), Said::Done),
    Turn("key 11 counts as 3", Ask::Store(0x17FE, 11, 1), Said::Done),
    Turn("key 8 counts as 0", Ask::Store(0x1000, 8, 1), Said::Done),
    Turn(
        "key 5 in the block of 3",
        Ask::Store(0x17FE, 5, 1),
        PROTECTED,
    ),
    Turn("key 5 in its block", Ask::Store(0x1800, 5, 1), Said::Done),
    Turn(
        "key 3 in the block of 5",
        Ask::Store(0x1800, 3, 1),
        PROTECTED,
    ),
    Turn("key 1 in a block of 0", Ask::Store(0, 1, 1), PROTECTED),
    Turn("key 255 in a block of 0", Ask::Store(0, 255, 1), PROTECTED),
    Turn("odd, wrong key", Ask::Store(0x1001, 5, 1), NO_WORD),
    Turn("past it, wrong key", Ask::Store(0x10000, 5, 1), NO_WORD),
    Turn("start", Ask::Command(0x7003, 0x0100), OK),
    Turn(
        "while an operation goes on",
        Ask::Store(2, 0, 1),
        Said::Done,
    ),
];

const TWO_HEADS: Said = Said::Accepted(7, 0x00AA);

const ATTENTION: Said = Said::Interrupt(4, 0x0003);

const ELEVEN: Said = Said::Ended(11, "specification check", "channel", 0x0100, 0);

#[test]
fn commands_of_a_free_card(rt: HostRuntime) -> Result<(), Fail> {
    play(&rt, rt.alloc(), &FREE)
}

#[test]
fn commands_of_a_busy_card(rt: HostRuntime) -> Result<(), Fail> {
    play(&rt, rt.alloc(), &UNDER_WAY)
}

#[test]
fn an_interrupt_waits(rt: HostRuntime) -> Result<(), Fail> {
    play(&rt, rt.alloc(), &WAITING)
}

#[test]
fn the_unit_turns_ready(rt: HostRuntime) -> Result<(), Fail> {
    play(&rt, rt.alloc(), &READINESS)
}

#[test]
fn interrupts_disabled(rt: HostRuntime) -> Result<(), Fail> {
    play(&rt, rt.alloc(), &DISABLED)
}

#[test]
fn processor_stores(rt: HostRuntime) -> Result<(), Fail> {
    play(&rt, rt.alloc(), &STORES)
}

// the second word of Prepare, and the level and the enable bit that it sets
#[test]
fn levels(rt: HostRuntime) -> Result<(), Fail> {
    let mut machine = new_machine(rt.alloc())?;
    for (word, level, enabled) in [
        (0x0007u16, 3u8, true),
        (0x0000, 0, false),
        (0x0001, 0, true),
        (0x0002, 1, false),
        (0x0010, 8, false),
        (0x001E, 15, false),
        (0x001F, 15, true),
        (0x0020, 0, false),
        (0xFFE0, 0, false),
        (0xFFE1, 0, true),
        (0xFFFF, 15, true),
    ] {
        expect(&rt, "prepare", &mut machine, Ask::Command(0x6003, word), OK)?;
        let card = machine.card();
        assert_eq!(rt; (card.level, card.enabled), (level, enabled), "{}", word);
    }
    assert_eq!(rt; position(&machine), (0, 0));
    Ok(())
}
