// The six calls, by what they bring.
ghost use Rattle.std.specs.Prelude.{◌≡◌};
ghost use Rattle.std.specs.Option.{ok_or};
ghost use Rattle.answers.specs.declared.answer.CommandRefusal.TheVariants.{CommandReject};
ghost use Rattle.card.specs.Calls.{command_of};

use answers::answer::CommandRefusal;

#[derive(Clone, Copy, PartialEq, Eq, Debug)]
pub enum Call {
    // the two words of the immediate device control block, and whether their parity was good
    Command {
        first: u16,
        second: u16,
        parity: bool,
    },
    Halt,
    // a word stored by the processor
    Store {
        address: u32,
        key: u8,
        word: u16,
    },
    // whether the unit is ready
    Readiness {
        ready: bool,
    },
    Service,
    Step,
}

// The commands that the card knows.
#[derive(Clone, Copy, PartialEq, Eq, Debug)]
pub enum Command {
    ReadDeviceId,
    Prepare,
    DeviceReset,
    Start,
    StartCycleStealStatus,
}

// By the command byte; an unknown one is rejected.
impl TryFrom<u8> for Command {
    type Error = CommandRefusal;

    ghost try_from_gives = { λ byte r. r ≡ ok_or (command_of byte) CommandReject };

    fn try_from(byte: u8) -> Result<Command, CommandRefusal> {
        match byte {
            0x20 => Ok(Command::ReadDeviceId),
            0x60 => Ok(Command::Prepare),
            0x6F => Ok(Command::DeviceReset),
            0x70 => Ok(Command::Start),
            0x7F => Ok(Command::StartCycleStealStatus),
            _ => Err(CommandRefusal::CommandReject),
        }
    }
}
