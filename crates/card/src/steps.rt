// The step: it fetches and checks a control block, moves the heads, does one sector, or sends status.
ghost use Rattle.std.specs.Prelude.{◌≡◌, ℕ, false, map, if◌then◌else◌};
ghost use Rattle.std.specs.Int.{w16, from_be_bytes};
ghost use Rattle.storage.specs.Memory.{Memory};
ghost use Rattle.drive.specs.Disk.{Disk};
ghost use Rattle.card.specs.Acts.{ends, ended, world};
ghost use Rattle.card.specs.Blocks.{chaining, modifier, operation_of};
ghost use Rattle.card.specs.Calls.{turn};
ghost use Rattle.card.specs.Carrying.{Looks, Carries};
ghost use Rattle.card.specs.Steps.{failed_turn, chained_turn, device_end, checked_head, checked_operation, checked, residual_for, fetch, sought, destination, move, status_words, send_status, step};

use crate::control_block::{Block, Operation};
use crate::progress::Progress;
use crate::registers::{Card, Position, Purpose, State};
use crate::surroundings::Surroundings;
use crate::transfer::{fetch_words, store_words};
use answers::answer::{Answer, Exception};
use answers::waiting::Waiting;
use drive::drive::Drive;
use storage::storage::Storage;

impl Card {
    // An exception ends the chain; what is already done stands.
    pub(crate) fn fail_passing(
        &mut self,
        device: u8,
        passed_spoiled: bool,
        address: u16,
        exception: Exception,
    ) -> Answer
        ensures { turn self.new result ≡ failed_turn device passed_spoiled self.old address exception }
    {
        self.errors |= exception.reasons(passed_spoiled);
        self.waiting = Some(Waiting {
            code: 2,
            id_word: u16::from_be_bytes([exception.status_byte(), device]),
        });
        self.state = State::Idle;
        Answer::Ended {
            exception,
            block: address,
        }
    }

    pub(crate) fn fail(&mut self, device: u8, address: u16, exception: Exception) -> Answer
        ensures { turn self.new result ≡ failed_turn device false self.old address exception }
    {
        self.fail_passing(device, false, address, exception)
    }

    // A block ended well: the next one of the chain is to be fetched, or device end waits.
    pub(crate) fn finish(&mut self, device: u8, block: Block) -> Answer
        ensures { turn self.new result ≡ (if chaining block then chained_turn self.old block else device_end device self.old) }
    {
        if block.is_chaining() {
            self.state = State::Fetching {
                purpose: Purpose::Operation,
                address: block.chain(),
            };
        } else {
            self.waiting = Some(Waiting {
                code: 3,
                id_word: u16::from(device),
            });
            self.state = State::Idle;
        }
        Answer::Stepped
    }

    // The head of a seek has to be on the drive; then the operation begins.
    fn check_head<D: Drive, S: Storage>(
        &mut self,
        around: &Surroundings<D, S>,
        block: Block,
        operation: Operation,
    ) -> Answer
        ensures { Looks D.meaning S.meaning (checked_head self.old block operation) around.now (turn self.new result) }
    {
        match operation {
            Operation::Seek => {
                if block.head() >= around.drive.heads() {
                    return self.fail(around.device, block.address, Exception::SpecificationCheck);
                }
                self.state = State::Moving { block };
            }
            Operation::Recalibrate => self.state = State::Moving { block },
            _ => self.state = State::Sector { block, done: 0 },
        }
        Answer::Stepped
    }

    fn check_operation<D: Drive, S: Storage>(
        &mut self,
        around: &Surroundings<D, S>,
        block: Block,
    ) -> Answer
        ensures { Looks D.meaning S.meaning (checked_operation self.old block (operation_of (modifier block))) around.now (turn self.new result) }
    {
        match block.operation() {
            Some(operation) if block.is_lawful(operation) => self.check_head(
                around, block, operation,
            ),
            _ => self.fail(around.device, block.address, Exception::SpecificationCheck),
        }
    }

    // The check of a block that was fetched whole.
    fn check<D: Drive, S: Storage>(
        &mut self,
        around: &Surroundings<D, S>,
        purpose: Purpose,
        block: Block,
    ) -> Answer
        ensures { Looks D.meaning S.meaning (checked purpose self.old block) around.now (turn self.new result) }
    {
        match purpose {
            Purpose::Operation => self.check_operation(around, block),
            Purpose::Status => {
                if !block.is_lawful_status() {
                    return self.fail(around.device, block.address, Exception::SpecificationCheck);
                }
                self.state = State::Status { block };
                Answer::Stepped
            }
        }
    }

    // Fetches a block of eight words with key 0, and checks it; an odd address fails before any fetch.
    fn fetch<D: Drive, S: Storage>(
        &mut self,
        around: &Surroundings<D, S>,
        purpose: Purpose,
        address: u16,
    ) -> Answer
        ensures { Looks D.meaning S.meaning (fetch purpose self.old address) around.now (turn self.new result) }
    {
        if address % 2 != 0 {
            return self.fail(around.device, address, Exception::SpecificationCheck);
        }
        let mut words = [0u16; 8];
        let mut residual = self.residual;
        let fetched = fetch_words(
            &around.storage,
            u32::from(address),
            0,
            &mut words,
            &mut residual,
        );
        self.keep_residual(purpose, residual);
        match fetched {
            Ok(()) => self.check(around, purpose, Block { address, words }),
            Err(stopped) => self.fail(around.device, address, Exception::from(stopped)),
        }
    }

    // what Start Cycle Steal Status fetches does not count
    fn keep_residual(&mut self, purpose: Purpose, residual: u16)
        ensures { self.new ≡ residual_for purpose self.old residual }
    {
        if matches!(purpose, Purpose::Operation) {
            self.residual = residual;
        }
    }

    // Moves the heads.
    fn move_heads(&mut self, device: u8, block: Block) -> Answer
        ensures { (d : Disk) (m : Memory) → ends (move self.old block) (world device d m) ≡ ended (turn self.new result) (world device d m) }
    {
        if !self.ready {
            return self.fail(device, block.address, Exception::NotReady);
        }
        match destination(self.position, block) {
            Some(position) => {
                self.position = position;
                self.finish(device, block)
            }
            None => self.fail(device, block.address, Exception::SeekCheck),
        }
    }
}

// where a seek lands; downward past cylinder 0 at cylinder 0 and head 0, upward past the last nowhere
fn sought(position: Position, block: Block) -> Option<Position>
    ensures { result ≡ sought position block }
{
    if block.is_downward() {
        if position.cylinder < block.difference() {
            return Some(HOME);
        }
        return Some(Position {
            cylinder: position.cylinder - block.difference(),
            head: block.head(),
        });
    }
    let cylinder = u32::from(position.cylinder) + u32::from(block.difference());
    if cylinder > 302 {
        return None;
    }
    Some(Position {
        cylinder: cylinder as u16,
        head: block.head(),
    })
}

// where a block takes the heads
fn destination(position: Position, block: Block) -> Option<Position>
    ensures { result ≡ destination position block (operation_of (modifier block)) }
{
    match block.operation() {
        Some(Operation::Seek) => sought(position, block),
        Some(Operation::Recalibrate) => Some(HOME),
        _ => Some(position),
    }
}

const HOME: Position = Position {
    cylinder: 0,
    head: 0,
};

impl Card {
    // status words 0 to 3, high byte first; word 3 is zero
    fn status_words(&self) -> [[u8; 2]; 4]
        ensures { map (from_be_bytes w16) result ≡ status_words self.now }
    {
        [
            self.residual.to_be_bytes(),
            self.errors.to_be_bytes(),
            self.write_sector.to_be_bytes(),
            [0, 0],
        ]
    }

    // Sends as many status words as the count asks for; they do not count for the residual address.
    fn send_status<D: Drive, S: Storage>(
        &mut self,
        around: &mut Surroundings<D, S>,
        block: Block,
    ) -> Answer
        ensures { Carries D.meaning S.meaning D.loan S.loan (send_status self.old block) around.old (turn self.new result) around.new }
    {
        let words = self.status_words();
        let count = usize::from(block.count() / 2).min(4);
        let mut residual = self.residual;
        let stored = store_words(
            &mut around.storage,
            u32::from(block.data_address()),
            block.key(),
            &words[..count],
            &mut residual,
        );
        match stored {
            Ok(()) => self.finish(around.device, block),
            Err(stopped) => self.fail(around.device, block.address, Exception::from(stopped)),
        }
    }

    // Does one thing, by the card's state and the block in hand.
    pub fn step<D: Drive, S: Storage>(&mut self, around: &mut Surroundings<D, S>) -> Answer
        ensures { Carries D.meaning S.meaning D.loan S.loan (step self.old) around.old (turn self.new result) around.new }
    {
        if self.waiting.is_some() {
            return Answer::Idle;
        }
        match self.state {
            State::Idle => Answer::Idle,
            State::Fetching { purpose, address } => self.fetch(around, purpose, address),
            State::Moving { block } => self.move_heads(around.device, block),
            State::Sector { block, done } => self.step_sector(around, Progress { block, done }),
            State::Status { block } => self.send_status(around, block),
        }
    }
}
