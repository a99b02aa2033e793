// A refused call changes nothing: a card that had it and one that had not go on alike.
use crate::look::position;
use crate::machine::Machine;
use crate::said::*;
use crate::stages::*;
use crate::turns::{Ask, expect};
use std::alloc::Global;
use std::process::Abort;
use std::test::Fail;
use storage::storage::Storage;

// All of the card that can be looked at, and a word of the storage.
#[derive(Clone, Copy, PartialEq, Eq, Debug)]
struct Look {
    position: (u16, u8),
    level: u8,
    enabled: bool,
    ready: bool,
    busy: bool,
    waiting: Option<(u8, u16)>,
    status: [u16; 3],
    word: Option<u16>,
}

fn seen(machine: &Machine) -> Look {
    let card = machine.card();
    let waiting = match card.waiting {
        Some(interrupt) => Some((interrupt.code, interrupt.id_word)),
        None => None,
    };
    Look {
        position: position(machine),
        level: card.level,
        enabled: card.enabled,
        ready: card.ready,
        busy: card.is_busy(),
        waiting,
        status: [card.residual, card.errors, card.write_sector],
        word: machine.storage().load(0x1000, 0).ok(),
    }
}

// What comes before, the call, and its refusal.
struct Refused(&'static str, &'static [Ask], Ask, Said);

const ENABLED: Ask = Ask::Command(0x6003, 0x0007);

static IN_EACH_STATE: [Refused; 22] = [
    Refused(
        "new, not attached",
        &[],
        Ask::Command(0x6F04, 0),
        NOT_ATTACHED,
    ),
    Refused(
        "new, parity",
        &[],
        Ask::BadParity(0x6003, 0xFFFF),
        DATA_CHECK,
    ),
    Refused("new, reject", &[], Ask::Command(0x6103, 0xFFFF), REJECT),
    Refused("new, step", &[], Ask::Step, IDLE),
    Refused("new, service", &[], Ask::Service, NOTHING_WAITS),
    Refused(
        "new, odd store",
        &[],
        Ask::Store(0x1001, 0, 0x5555),
        NO_WORD,
    ),
    Refused(
        "new, closed store",
        &[],
        Ask::Store(0x1000, 5, 0x5555),
        PROTECTED,
    ),
    Refused(
        "before a fetch, parity of a reset",
        &[Ask::Ready, ENABLED, Ask::Command(0x7003, WRITE)],
        Ask::BadParity(0x6F03, 0),
        DATA_CHECK,
    ),
    Refused(
        "before a fetch, another start",
        &[Ask::Ready, ENABLED, Ask::Command(0x7003, WRITE)],
        Ask::Command(0x7003, READ),
        BUSY,
    ),
    Refused(
        "before a fetch, service",
        &[Ask::Ready, ENABLED, Ask::Command(0x7003, WRITE)],
        Ask::Service,
        NOTHING_WAITS,
    ),
    Refused(
        "before a move, another start",
        &[Ask::Ready, ENABLED, Ask::Command(0x7003, SEEK_5), Ask::Step],
        Ask::Command(0x7003, READ),
        BUSY,
    ),
    Refused(
        "before a status block is fetched, another",
        &[ENABLED, Ask::Command(0x7F03, SEND_STATUS)],
        Ask::Command(0x7F03, READ),
        BUSY,
    ),
    Refused(
        "before status is sent, a start",
        &[ENABLED, Ask::Command(0x7F03, SEND_STATUS), Ask::Step],
        Ask::Command(0x7003, READ),
        BUSY,
    ),
    Refused(
        "between sectors, a start",
        &[
            Ask::Ready,
            ENABLED,
            Ask::Command(0x7003, WRITE),
            Ask::Step,
            Ask::Step,
        ],
        Ask::Command(0x7003, READ),
        BUSY,
    ),
    Refused(
        "between sectors, unknown",
        &[
            Ask::Ready,
            ENABLED,
            Ask::Command(0x7003, WRITE),
            Ask::Step,
            Ask::Step,
        ],
        Ask::Command(0x0003, READ),
        BUSY,
    ),
    Refused(
        "between sectors, a store past the storage",
        &[
            Ask::Ready,
            ENABLED,
            Ask::Command(0x7003, WRITE),
            Ask::Step,
            Ask::Step,
        ],
        Ask::Store(0x10000, 0, 0x5555),
        NO_WORD,
    ),
    Refused(
        "after a seek check, a step",
        &[
            Ask::Ready,
            ENABLED,
            Ask::Command(0x7003, SEEK_303),
            Ask::Step,
            Ask::Step,
        ],
        Ask::Step,
        IDLE,
    ),
    Refused(
        "after a seek check, a start",
        &[
            Ask::Ready,
            ENABLED,
            Ask::Command(0x7003, SEEK_303),
            Ask::Step,
            Ask::Step,
        ],
        Ask::Command(0x7003, SEEK_5),
        BUSY,
    ),
    Refused(
        "after its service, bad parity of a start",
        &[
            Ask::Ready,
            ENABLED,
            Ask::Command(0x7003, SEEK_303),
            Ask::Step,
            Ask::Step,
            Ask::Service,
        ],
        Ask::BadParity(0x7003, SEEK_5),
        DATA_CHECK,
    ),
    Refused(
        "device end waits while disabled, service",
        &[
            Ask::Ready,
            Ask::Command(0x7003, SEEK_5),
            Ask::Step,
            Ask::Step,
        ],
        Ask::Service,
        NOTHING_WAITS,
    ),
    Refused(
        "attention waits, a step",
        &[ENABLED, Ask::Ready],
        Ask::Step,
        IDLE,
    ),
    Refused(
        "in a chain, before its second block",
        &[
            Ask::Ready,
            ENABLED,
            Ask::Command(0x7003, WRITE_CHAINED),
            Ask::Step,
            Ask::Step,
        ],
        Ask::Command(0x7F03, SEND_STATUS),
        BUSY,
    ),
];

static GOING_ON: [Ask; 9] = [
    Ask::Step,
    Ask::Step,
    Ask::Service,
    ENABLED,
    Ask::Service,
    Ask::Command(0x7003, SEEK_5),
    Ask::Step,
    Ask::Step,
    Ask::Service,
];

// the machine after some calls
fn brought(rt: &impl Abort, heap: Global, before: &[Ask]) -> Result<Machine, Fail> {
    let mut machine = furnished(rt, heap, &[])?;
    for ask in before {
        let _ = machine.carry_out(ask.call());
    }
    Ok(machine)
}

fn play_refused(rt: &impl Abort, heap: Global, row: &Refused) -> Result<(), Fail> {
    let mut had = brought(rt, heap, row.1)?;
    let mut had_not = brought(rt, heap, row.1)?;
    expect(rt, row.0, &mut had, row.2, row.3)?;
    assert_eq!(rt; seen(&had), seen(&had_not), "{}", row.0);
    for ask in &GOING_ON {
        let said = answered(had_not.carry_out(ask.call()));
        expect(rt, row.0, &mut had, *ask, said)?;
    }
    assert_eq!(rt; seen(&had), seen(&had_not), "{}", row.0);
    Ok(())
}

#[test]
fn refused_calls(rt: HostRuntime) -> Result<(), Fail> {
    for row in &IN_EACH_STATE {
        play_refused(&rt, rt.alloc(), row)?;
    }
    Ok(())
}
