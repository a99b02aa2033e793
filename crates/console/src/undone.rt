// Set-up lines that are not done.
use anyhow::anyhow;
use basics::handed_back::HandedBack;
use basics::refusal::Refusal;
use machine::machine::Machine;
use machine::not_fresh::NotFresh;
use std::alloc::AllocError;
use std::io;

// Why a set-up line is not done.
#[derive(Drop)]
pub enum NotDone {
    Refused(Refusal),
    // the line can't be read, for this reason
    Unreadable(anyhow::Error),
}

impl From<AllocError> for NotDone {
    fn from(error: AllocError) -> Self {
        NotDone::Unreadable(error.into())
    }
}

impl From<io::Error> for NotDone {
    fn from(error: io::Error) -> Self {
        NotDone::Unreadable(error.into())
    }
}

// The machine as it was before such a line.
#[derive(Drop)]
pub struct Undone {
    pub machine: Machine,
    pub why: NotDone,
}

impl From<HandedBack<Machine>> for Undone {
    fn from(back: HandedBack<Machine>) -> Self {
        let HandedBack { refusal, given } = back;
        Undone {
            machine: given,
            why: NotDone::Refused(refusal),
        }
    }
}

impl From<NotFresh> for Undone {
    fn from(not_fresh: NotFresh) -> Self {
        match not_fresh {
            NotFresh::NotPlain(machine) => Undone {
                machine,
                why: NotDone::Unreadable(anyhow!("a chained pack has no fresh tracks")),
            },
            NotFresh::Refused(back) => back.into(),
        }
    }
}
