// What a call answers, by the numbers and words of the rules.
use answers::answer::{Answer, Detail};

#[derive(Clone, Copy, PartialEq, Eq, Debug)]
pub enum Said {
    // an accepted command: its code and its word
    Accepted(u8, u16),
    // a service: the code and the ID word
    Interrupt(u8, u16),
    // a refusal: its number, its word, and its code if it has one
    Refused(u8, &'static str, Option<u8>),
    // a step that ended by an exception: number, word, layer, address of the block, and what else it tells
    Ended(u8, &'static str, &'static str, u16, u32),
    Stepped,
    Done,
}

// a command without an answer of its own
pub const OK: Said = Said::Accepted(7, 0);

pub const NOT_ATTACHED: Said = Said::Refused(1, "not attached", Some(0));

pub const DATA_CHECK: Said = Said::Refused(2, "interface data check", Some(5));

pub const BUSY: Said = Said::Refused(3, "busy", Some(1));

pub const REJECT: Said = Said::Refused(4, "command reject", Some(3));

pub const IDLE: Said = Said::Refused(5, "idle", None);

pub const NOTHING_WAITS: Said = Said::Refused(6, "nothing waits", None);

pub const NO_WORD: Said = Said::Refused(13, "invalid address", None);

pub const PROTECTED: Said = Said::Refused(14, "protect check", None);

// what the rules call an answer
pub fn answered(answer: Answer) -> Said {
    match answer {
        Answer::Accepted { word } => Said::Accepted(answer.code().unwrap_or(99), word),
        Answer::Interrupt { waiting } => {
            Said::Interrupt(answer.code().unwrap_or(99), waiting.id_word)
        }
        Answer::Ended { exception, block } => Said::Ended(
            answer.number().unwrap_or(0),
            answer.word().unwrap_or(""),
            exception.layer().word(),
            block,
            match exception.told() {
                Some(Detail::Word(address)) => address,
                Some(Detail::Sector(sector)) => u32::from(sector),
                None => 0,
            },
        ),
        Answer::Stepped => Said::Stepped,
        Answer::Done => Said::Done,
        _ => Said::Refused(
            answer.number().unwrap_or(0),
            answer.word().unwrap_or(""),
            answer.code(),
        ),
    }
}
