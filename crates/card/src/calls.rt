// The calls of the processor and of the unit, the step aside. The device address is the attachment's, not a register.
ghost use Rattle.std.specs.Prelude.{◌≡◌, ℕ, true, MatchResult};
ghost use Rattle.answers.specs.declared.answer.Answer.TheVariants.{CommandRefused};
ghost use Rattle.storage.specs.Memory.{Memory};
ghost use Rattle.drive.specs.Disk.{Disk};
ghost use Rattle.card.specs.Acts.{spares_storage, ends, sent, ended, world};
ghost use Rattle.card.specs.Calls.{new_card, turn, is_idle, is_busy, reset, meets_busy, accepted, command, store, readiness, serviced};

use crate::call::Command;
use crate::registers::{Card, Position, Purpose, State};
use answers::answer::{Answer, CommandRefusal};
use answers::waiting::Waiting;
use drive::drive::Drive;
use storage::storage::Storage;

// only Start, Start Cycle Steal Status and unknown commands meet a busy card
fn meets_busy(command: Option<Command>) -> bool
    ensures { result ≡ meets_busy command }
{
    !matches!(
        command,
        Some(Command::ReadDeviceId | Command::Prepare | Command::DeviceReset)
    )
}

impl State {
    fn is_idle(self) -> bool
        ensures { result ≡ is_idle self }
    {
        matches!(self, State::Idle)
    }
}

impl Card {
    // A card just started: heads at cylinder 0 and head 0, all registers zero, not ready, interrupts disabled.
    pub fn new() -> Card
        ensures { result ≡ new_card }
    {
        Card {
            position: Position {
                cylinder: 0,
                head: 0,
            },
            level: 0,
            enabled: false,
            ready: false,
            state: State::Idle,
            waiting: None,
            residual: 0,
            errors: 0,
            write_sector: 0,
        }
    }

    pub fn is_busy(&self) -> bool
        ensures { result ≡ is_busy self.now }
    {
        !self.state.is_idle() || self.waiting.is_some()
    }

    // what Device Reset and Halt do
    fn reset(&mut self)
        ensures { self.new ≡ reset self.old }
    {
        self.state = State::Idle;
        self.waiting = None;
        self.write_sector = 0;
        self.errors = if self.ready { 0 } else { self.errors % 2 };
    }

    // The command of a first word. The tests in their order: device address, parity, busy, unknown.
    fn admitted(&self, device: u8, first: u16, parity: bool) -> Result<Command, CommandRefusal>
        ensures { (x : ℕ) (d : Disk) (m : Memory) → MatchResult result
            (λ k. ends (command self.now first x parity) (world device d m) ≡ ends (accepted self.now k x) (world device d m))
            (λ e. ends (command self.now first x parity) (world device d m) ≡ ended (turn self.now (CommandRefused e)) (world device d m)) }
    {
        let [code, address] = first.to_be_bytes();
        let known = Command::try_from(code);
        if address != device {
            return Err(CommandRefusal::NotAttached);
        }
        if !parity {
            return Err(CommandRefusal::InterfaceDataCheck);
        }
        if self.is_busy() && meets_busy(known.ok()) {
            return Err(CommandRefusal::Busy);
        }
        known
    }

    // an accepted command, with its second word
    fn accept<D: Drive>(&mut self, drive: &D, known: Command, second: u16) -> Answer
        ensures { (v : ℕ) (m : Memory) → ends (accepted self.old known second) (world v (D.meaning drive.now) m) ≡ ended (turn self.new result) (world v (D.meaning drive.now) m) }
    {
        match known {
            Command::ReadDeviceId => {
                let word = if drive.heads() == 3 { 0x00CA } else { 0x00AA };
                return Answer::Accepted { word };
            }
            Command::Prepare => {
                self.level = (second / 2 % 16) as u8;
                self.enabled = second % 2 == 1;
            }
            Command::DeviceReset => self.reset(),
            Command::Start => {
                self.errors &= 0x013D;
                self.state = State::Fetching {
                    purpose: Purpose::Operation,
                    address: second,
                };
            }
            Command::StartCycleStealStatus => {
                self.state = State::Fetching {
                    purpose: Purpose::Status,
                    address: second,
                };
            }
        }
        Answer::Accepted { word: 0 }
    }

    // The two words of the immediate device control block, and whether their parity was good.
    // kept: it takes address and drive alone, for it has nothing to do with storage; readiness takes the address alone
    pub fn command<D: Drive>(
        &mut self,
        device: u8,
        drive: &D,
        first: u16,
        second: u16,
        parity: bool,
    ) -> Answer
        ensures { (m : Memory) → ends (command self.old first second parity) (world device (D.meaning drive.now) m) ≡ ended (turn self.new result) (world device (D.meaning drive.now) m) }
    {
        match self.admitted(device, first, parity) {
            Ok(known) => self.accept(drive, known, second),
            Err(refusal) => Answer::CommandRefused { refusal },
        }
    }

    // Halt I/O.
    pub fn halt(&mut self) -> Answer
        ensures { turn self.new result ≡ turn (reset self.old) Answer.Done }
    {
        self.reset();
        Answer::Done
    }

    // The unit says that it is ready or not ready.
    pub fn readiness(&mut self, device: u8, ready: bool) -> Answer
        ensures { (d : Disk) (m : Memory) → ends (readiness self.old ready) (world device d m) ≡ ended (turn self.new result) (world device d m) }
    {
        if ready && !self.ready && self.enabled && !self.is_busy() {
            self.waiting = Some(Waiting {
                code: 4,
                id_word: u16::from(device),
            });
        }
        self.ready = ready;
        Answer::Done
    }

    // The waiting interrupt is handed over.
    pub fn service(&mut self) -> Answer
        ensures { turn self.new result ≡ serviced self.old }
    {
        if !self.enabled {
            return Answer::NothingWaits;
        }
        match self.waiting.take() {
            Some(waiting) => Answer::Interrupt { waiting },
            None => Answer::NothingWaits,
        }
    }
}

// A word stored by the processor; the card has no part in it.
pub fn processor_store<S: Storage>(storage: &mut S, address: u32, key: u8, word: u16) -> Answer
    ensures came { (c : Card) (v : ℕ) (d : Disk) → ends (store c address key word) (world v d (S.meaning storage.old)) ≡ ended (turn c result) (world v d (S.meaning storage.new)) }
    ensures storage { (c : Card) (v : ℕ) (d : Disk) → spares_storage (sent (store c address key word) (world v d (S.meaning storage.old))) ≡ true → storage.new ≡ storage.old }
    ensures lent { S.loan storage.new ≡ S.loan storage.old }
{
    match storage.store(address, key, word) {
        Ok(()) => Answer::Done,
        Err(fault) => Answer::StoreRefused { fault },
    }
}
