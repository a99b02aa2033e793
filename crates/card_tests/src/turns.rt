// Tables of calls with their answers, played on a new card.
use crate::machine::{DEVICE, Machine, make_disk, make_memory, new_machine};
use crate::said::{Said, answered};
use answers::answer::Answer;
use card::call::Call;
use card::surroundings::Surroundings;
use runs::entry::Entry;
use runs::run::run;
use std::alloc::{AllocError, Global};
use std::process::Abort;
use std::test::Fail;

// A call.
#[derive(Clone, Copy)]
pub enum Ask {
    Command(u16, u16),
    BadParity(u16, u16),
    Halt,
    Store(u32, u8, u16),
    Ready,
    NotReady,
    Service,
    Step,
}

// A call by name, and its answer.
pub struct Turn(pub &'static str, pub Ask, pub Said);

impl Ask {
    pub fn call(self) -> Call {
        match self {
            Ask::Command(first, second) => Call::Command {
                first,
                second,
                parity: true,
            },
            Ask::BadParity(first, second) => Call::Command {
                first,
                second,
                parity: false,
            },
            Ask::Halt => Call::Halt,
            Ask::Store(address, key, word) => Call::Store { address, key, word },
            Ask::Ready => Call::Readiness { ready: true },
            Ask::NotReady => Call::Readiness { ready: false },
            Ask::Service => Call::Service,
            Ask::Step => Call::Step,
        }
    }
}

// Makes one call.
pub fn expect(
    rt: &impl Abort,
    row: &str,
    machine: &mut Machine,
    ask: Ask,
    expected: Said,
) -> Result<(), Fail> {
    assert_eq!(rt; answered(machine.carry_out(ask.call())), expected, "{row}");
    Ok(())
}

// the calls, each with a place for its answer
pub fn entries(heap: Global, turns: &[Turn]) -> Result<Vec<Entry>, AllocError> {
    let mut entries = Vec::new(heap);
    for turn in turns {
        entries.push(Entry {
            call: turn.1.call(),
            answer: Answer::Idle,
        })?;
    }
    Ok(entries)
}

// Plays the calls one by one.
fn play_singly(rt: &impl Abort, heap: Global, turns: &[Turn]) -> Result<(), Fail> {
    let mut machine = new_machine(heap)?;
    for turn in turns {
        expect(rt, turn.0, &mut machine, turn.1, turn.2)?;
    }
    Ok(())
}

pub fn check_answers(rt: &impl Abort, entries: &[Entry], turns: &[Turn]) {
    assert_eq!(rt; entries.len(), turns.len());
    for (entry, turn) in entries.iter().zip(turns.iter()) {
        assert_eq!(rt; answered(entry.answer), turn.2, "{}", turn.0);
    }
}

// Plays the calls as one list.
fn play_whole(rt: &impl Abort, heap: Global, turns: &[Turn]) -> Result<(), Fail> {
    let mut list = entries(heap, turns)?;
    let mut around = Surroundings {
        device: DEVICE,
        drive: make_disk(heap, &[], &[])?,
        storage: make_memory(heap, &[])?,
    };
    let _ = run(&mut around, list.as_mut_slice());
    check_answers(rt, list.as_slice(), turns);
    Ok(())
}

// Plays the calls on a new card, both ways.
pub fn play(rt: &impl Abort, heap: Global, turns: &[Turn]) -> Result<(), Fail> {
    play_singly(rt, heap, turns)?;
    play_whole(rt, heap, turns)
}
