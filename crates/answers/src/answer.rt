// What the six calls answer.
ghost use Rattle.std.specs.Prelude.{◌≡◌, Some, [], unwrap_or, option_map};
ghost use Rattle.std.specs.Option.{option_copied};
ghost use Rattle.answers.specs.Exceptions.{command_number, command_word, command_code, exception_number, exception_word, layer_of, layer_word, detail_of, told_of, detail_number, status_byte, reasons, number_of, answer_number, word_of, answer_word, code_of};

use crate::waiting::Waiting;
use basics::fault::Fault;
use std::fmt;

// Why a command is refused.
#[derive(Clone, Copy, PartialEq, Eq, Debug)]
pub enum CommandRefusal {
    NotAttached,
    InterfaceDataCheck,
    Busy,
    CommandReject,
}

impl CommandRefusal {
    pub fn number(self) -> u8
        ensures { result ≡ command_number self }
    {
        match self {
            CommandRefusal::NotAttached => 1,
            CommandRefusal::InterfaceDataCheck => 2,
            CommandRefusal::Busy => 3,
            CommandRefusal::CommandReject => 4,
        }
    }

    pub fn word(self) -> &'static str
        ensures { result.now ≡ command_word self }
    {
        match self {
            CommandRefusal::NotAttached => "not attached",
            CommandRefusal::InterfaceDataCheck => "interface data check",
            CommandRefusal::Busy => "busy",
            CommandRefusal::CommandReject => "command reject",
        }
    }

    // the condition code
    pub fn code(self) -> u8
        ensures { result ≡ command_code self }
    {
        match self {
            CommandRefusal::NotAttached => 0,
            CommandRefusal::InterfaceDataCheck => 5,
            CommandRefusal::Busy => 1,
            CommandRefusal::CommandReject => 3,
        }
    }
}

// Written as its word.
impl fmt::Display for CommandRefusal {
    ghost output = { λ x. Some (command_word x) };

    fn fmt<W: fmt::Write>(&self, f: &mut fmt::Formatter<W>) -> fmt::Result {
        f.write_str(self.word())
    }
}

// Where an exception comes from.
#[derive(Clone, Copy, PartialEq, Eq, Debug)]
pub enum Layer {
    Channel,
    Storage,
    Drive,
}

impl Layer {
    pub fn word(self) -> &'static str
        ensures { result.now ≡ layer_word self }
    {
        match self {
            Layer::Channel => "channel",
            Layer::Storage => "storage",
            Layer::Drive => "drive",
        }
    }
}

// Written as its word.
impl fmt::Display for Layer {
    ghost output = { λ x. Some (layer_word x) };

    fn fmt<W: fmt::Write>(&self, f: &mut fmt::Formatter<W>) -> fmt::Result {
        f.write_str(self.word())
    }
}

// What an exception tells beside its kind.
#[derive(Clone, Copy, PartialEq, Eq, Debug)]
pub enum Detail {
    // the address of the word that failed
    Word(u32),
    Sector(u8),
}

// What ends a chain: its kind, with what it tells.
#[derive(Clone, Copy, PartialEq, Eq, Debug)]
pub enum Exception {
    SpecificationCheck,
    // the address of the word that failed, which may lie past the storage
    Storage { fault: Fault, address: u32 },
    NoRecordFound { sector: u8 },
    FileDataCheck { sector: u8 },
    EndOfTrack { sector: u8 },
    SeekCheck,
    NotReady,
}

impl Exception {
    pub fn number(self) -> u8
        ensures { result ≡ exception_number self }
    {
        match self {
            Exception::SpecificationCheck => 11,
            Exception::Storage { fault, .. } => fault.number(),
            Exception::NoRecordFound { .. } => 15,
            Exception::FileDataCheck { .. } => 16,
            Exception::EndOfTrack { .. } => 17,
            Exception::SeekCheck => 18,
            Exception::NotReady => 19,
        }
    }

    pub fn word(self) -> &'static str
        ensures { result.now ≡ exception_word self }
    {
        match self {
            Exception::SpecificationCheck => "specification check",
            Exception::Storage { fault, .. } => fault.word(),
            Exception::NoRecordFound { .. } => "no record found",
            Exception::FileDataCheck { .. } => "file data check",
            Exception::EndOfTrack { .. } => "end of track",
            Exception::SeekCheck => "seek check",
            Exception::NotReady => "not ready",
        }
    }

    pub fn layer(self) -> Layer
        ensures { result ≡ layer_of self }
    {
        match self {
            Exception::SpecificationCheck => Layer::Channel,
            Exception::Storage { .. } => Layer::Storage,
            Exception::NoRecordFound { .. }
            | Exception::FileDataCheck { .. }
            | Exception::EndOfTrack { .. }
            | Exception::SeekCheck
            | Exception::NotReady => Layer::Drive,
        }
    }

    // what else is told
    pub fn told(self) -> Option<Detail>
        ensures detail { result ≡ detail_of self }
        ensures number { unwrap_or (option_map detail_number result) 0 ≡ told_of self }
    {
        match self {
            Exception::Storage { address, .. } => Some(Detail::Word(address)),
            Exception::NoRecordFound { sector }
            | Exception::FileDataCheck { sector }
            | Exception::EndOfTrack { sector } => Some(Detail::Sector(sector)),
            Exception::SpecificationCheck | Exception::SeekCheck | Exception::NotReady => None,
        }
    }

    // the high byte of the interrupt ID word
    pub fn status_byte(self) -> u8
        ensures { result ≡ status_byte self }
    {
        match self {
            Exception::SpecificationCheck => 0x10,
            Exception::Storage { fault, .. } => match fault {
                Fault::StorageDataCheck => 0x08,
                Fault::InvalidAddress => 0x04,
                Fault::ProtectCheck => 0x02,
            },
            Exception::NoRecordFound { .. }
            | Exception::FileDataCheck { .. }
            | Exception::EndOfTrack { .. }
            | Exception::SeekCheck
            | Exception::NotReady => 0x80,
        }
    }

    // the bits that it adds to status word 1
    pub fn reasons(self, passed_spoiled: bool) -> u16
        ensures { result ≡ reasons passed_spoiled self }
    {
        match self {
            Exception::SpecificationCheck | Exception::Storage { .. } => 0,
            Exception::NoRecordFound { .. } => if passed_spoiled { 0x1080 } else { 0x1000 },
            Exception::FileDataCheck { .. } => 0x0080,
            Exception::EndOfTrack { .. } => 0x8000,
            Exception::SeekCheck => 0x0040,
            Exception::NotReady => 0x0001,
        }
    }
}

// Written as its word.
impl fmt::Display for Exception {
    ghost output = { λ x. Some (exception_word x) };

    fn fmt<W: fmt::Write>(&self, f: &mut fmt::Formatter<W>) -> fmt::Result {
        f.write_str(self.word())
    }
}

// All that a call returns.
#[derive(Clone, Copy, PartialEq, Eq, Debug)]
pub enum Answer {
    // an accepted command answers code 7 and a word
    Accepted { word: u16 },
    CommandRefused { refusal: CommandRefusal },
    // halt, readiness and an accepted store have nothing to tell
    Done,
    StoreRefused { fault: Fault },
    Interrupt { waiting: Waiting },
    NothingWaits,
    // a step that went well
    Stepped,
    // a step that ended by an exception, with the address of its control block
    Ended { exception: Exception, block: u16 },
    Idle,
}

impl Answer {
    // the number of the refusal or exception; none where the call went well
    pub fn number(self) -> Option<u8>
        ensures value { result ≡ number_of self }
        ensures zero_for_none { unwrap_or result 0 ≡ answer_number self }
    {
        match self {
            Answer::CommandRefused { refusal } => Some(refusal.number()),
            Answer::StoreRefused { fault } => Some(fault.number()),
            Answer::NothingWaits => Some(6),
            Answer::Ended { exception, .. } => Some(exception.number()),
            Answer::Idle => Some(5),
            Answer::Accepted { .. } | Answer::Interrupt { .. } | Answer::Done | Answer::Stepped =>
                None,
        }
    }

    // its word; none where the call went well
    pub fn word(self) -> Option<&'static str>
        ensures value { option_copied result ≡ word_of self }
        ensures empty_for_none { unwrap_or (option_copied result) [] ≡ answer_word self }
    {
        match self {
            Answer::CommandRefused { refusal } => Some(refusal.word()),
            Answer::StoreRefused { fault } => Some(fault.word()),
            Answer::NothingWaits => Some("nothing waits"),
            Answer::Ended { exception, .. } => Some(exception.word()),
            Answer::Idle => Some("idle"),
            Answer::Accepted { .. } | Answer::Interrupt { .. } | Answer::Done | Answer::Stepped =>
                None,
        }
    }

    // the condition code of a command or a service
    pub fn code(self) -> Option<u8>
        ensures { result ≡ code_of self }
    {
        match self {
            Answer::Accepted { .. } => Some(7),
            Answer::CommandRefused { refusal } => Some(refusal.code()),
            Answer::Interrupt { waiting } => Some(waiting.code),
            Answer::StoreRefused { .. } | Answer::Ended { .. } => None,
            Answer::Done | Answer::Stepped | Answer::NothingWaits | Answer::Idle => None,
        }
    }
}
