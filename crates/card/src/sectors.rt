// One sector of a data operation.
ghost use Rattle.std.specs.Prelude.{◌≡◌, ℕ, true};
ghost use Rattle.storage.specs.Memory.{Memory};
ghost use Rattle.drive.specs.Disk.{Disk, is_good};
ghost use Rattle.card.specs.Acts.{ends, ended, world, bytes_of};
ghost use Rattle.card.specs.Blocks.{modifier, operation_of, sector_now};
ghost use Rattle.card.specs.Calls.{turn};
ghost use Rattle.card.specs.Carrying.{Looks, Carries};
ghost use Rattle.card.specs.Steps.{failed_turn, under_heads, write_ends, sector_done, verify_sector, read_sector, write_data_sector, found, searched_sector, sector_step};

use crate::control_block::{Block, Operation};
use crate::progress::Progress;
use crate::registers::{Card, Position, State};
use crate::surroundings::Surroundings;
use crate::transfer::{fetch_words, store_words};
use answers::answer::{Answer, Exception};
use drive::drive::Drive;
use drive::geometry::{SECTOR_BYTES, Track};
use drive::search::search;
use storage::storage::Storage;

impl Position {
    // the track under the heads
    fn track(self) -> Track
        ensures { result ≡ under_heads self }
    {
        Track {
            cylinder: self.cylinder,
            head: self.head,
        }
    }
}

// the bytes of a sector's words, high byte first
fn sector_bytes(words: &[u16; 128]) -> [u8; SECTOR_BYTES]
    ensures { result ≡ bytes_of words.now }
{
    let mut bytes = [0u8; SECTOR_BYTES];
    for (i, word) in words.iter().enumerate() {
        let [high, low] = word.to_be_bytes();
        bytes[2 * i] = high;
        bytes[2 * i + 1] = low;
    }
    bytes
}

impl Card {
    // status word 2 of a write that ends at a sector
    fn end_write(&mut self, block: Block, sector: u16)
        ensures { self.new ≡ write_ends block sector self.old }
    {
        if matches!(block.operation(), Some(Operation::WriteData)) {
            self.write_sector = sector;
        }
    }

    // A sector step fails.
    fn fail_sector(
        &mut self,
        device: u8,
        passed_spoiled: bool,
        progress: Progress,
        exception: Exception,
    ) -> Answer
        ensures { turn self.new result ≡ failed_turn device passed_spoiled (write_ends progress.block (sector_now progress.block progress.done) self.old) progress.block.address exception }
    {
        self.end_write(progress.block, u16::from(progress.sector()));
        self.fail_passing(device, passed_spoiled, progress.block.address, exception)
    }

    // A sector is done: the operation has ended, the track has, or a sector is next.
    fn end_sector(&mut self, device: u8, progress: Progress) -> Answer
        ensures { (d : Disk) (m : Memory) → ends (sector_done self.old progress.block progress.done) (world device d m) ≡ ended (turn self.new result) (world device d m) }
    {
        let Progress { block, done } = progress;
        let sector = progress.sector();
        if progress.left() <= 256 {
            self.end_write(block, u16::from(sector) + 1);
            return self.finish(device, block);
        }
        if sector >= 59 {
            return self.fail_sector(device, false, progress, Exception::EndOfTrack { sector });
        }
        self.state = State::Sector {
            block,
            done: done + 1,
        };
        Answer::Stepped
    }

    // Read Data: the found data is tested, then its words are stored.
    fn read_sector<D: Drive, S: Storage>(
        &mut self,
        around: &mut Surroundings<D, S>,
        progress: Progress,
        place: u8,
    ) -> Answer
        requires { is_good ((D.meaning around.old.drive).sector (under_heads self.old.position) place).id.condition ≡ true }
        ensures { Carries D.meaning S.meaning D.loan S.loan (read_sector self.old progress.block progress.done (under_heads self.old.position) place) around.old (turn self.new result) around.new }
    {
        let device = around.device;
        let track = self.position.track();
        if !around.drive.data_condition(track, place).is_good() {
            let sector = progress.sector();
            return self.fail_sector(device, false, progress, Exception::FileDataCheck { sector });
        }
        let Ok(bytes) = around.drive.read(track, place) else {
            unreachable()
        };
        let (words, _) = bytes.as_chunks::<2>();
        let stored = store_words(
            &mut around.storage,
            progress.address(),
            progress.block.key(),
            &words[..progress.words_left()],
            &mut self.residual,
        );
        match stored {
            Ok(()) => self.end_sector(device, progress),
            Err(stopped) => self.fail_sector(device, false, progress, Exception::from(stopped)),
        }
    }

    // Write Data: the sector's words are fetched, then written, padded with zeros.
    fn write_sector<D: Drive, S: Storage>(
        &mut self,
        around: &mut Surroundings<D, S>,
        progress: Progress,
        place: u8,
    ) -> Answer
        requires { is_good ((D.meaning around.old.drive).sector (under_heads self.old.position) place).id.condition ≡ true }
        ensures { Carries D.meaning S.meaning D.loan S.loan (write_data_sector self.old progress.block progress.done (under_heads self.old.position) place) around.old (turn self.new result) around.new }
    {
        let device = around.device;
        let track = self.position.track();
        let mut words = [0u16; 128];
        let fetched = fetch_words(
            &around.storage,
            progress.address(),
            progress.block.key(),
            &mut words[..progress.words_left()],
            &mut self.residual,
        );
        match fetched {
            Ok(()) => {
                let bytes = sector_bytes(&words);
                let _ = around.drive.write(track, place, &bytes);
                self.end_sector(device, progress)
            }
            Err(stopped) => self.fail_sector(device, false, progress, Exception::from(stopped)),
        }
    }

    // Read Verify: the found data is only tested.
    fn verify_sector<D: Drive, S: Storage>(
        &mut self,
        around: &Surroundings<D, S>,
        progress: Progress,
        place: u8,
    ) -> Answer
        ensures { Looks D.meaning S.meaning (verify_sector self.old progress.block progress.done (under_heads self.old.position) place) around.now (turn self.new result) }
    {
        let track = self.position.track();
        if !around.drive.data_condition(track, place).is_good() {
            let sector = progress.sector();
            return self.fail_sector(
                around.device,
                false,
                progress,
                Exception::FileDataCheck { sector },
            );
        }
        self.end_sector(around.device, progress)
    }

    // What is done with the place that the search found.
    fn do_sector<D: Drive, S: Storage>(
        &mut self,
        around: &mut Surroundings<D, S>,
        progress: Progress,
        place: u8,
    ) -> Answer
        requires { is_good ((D.meaning around.old.drive).sector (under_heads self.old.position) place).id.condition ≡ true }
        ensures { Carries D.meaning S.meaning D.loan S.loan (found self.old progress.block progress.done (under_heads self.old.position) place (operation_of (modifier progress.block))) around.old (turn self.new result) around.new }
    {
        match progress.block.operation() {
            Some(Operation::ReadData) => self.read_sector(around, progress, place),
            Some(Operation::WriteData) => self.write_sector(around, progress, place),
            Some(Operation::ReadVerify) => self.verify_sector(around, progress, place),
            _ => Answer::Idle,
        }
    }

    // The search under the heads, and then the sector.
    fn search_sector<D: Drive, S: Storage>(
        &mut self,
        around: &mut Surroundings<D, S>,
        progress: Progress,
    ) -> Answer
        ensures { Carries D.meaning S.meaning D.loan S.loan (searched_sector self.old progress.block progress.done (under_heads self.old.position)) around.old (turn self.new result) around.new }
    {
        match search(&around.drive, self.position.track(), progress.argument()) {
            Ok(place) => self.do_sector(around, progress, place),
            Err(no_record) => {
                let sector = progress.sector();
                self.fail_sector(
                    around.device,
                    no_record.passed_spoiled,
                    progress,
                    Exception::NoRecordFound { sector },
                )
            }
        }
    }

    // One sector, or all of a zero count.
    pub(crate) fn step_sector<D: Drive, S: Storage>(
        &mut self,
        around: &mut Surroundings<D, S>,
        progress: Progress,
    ) -> Answer
        ensures { Carries D.meaning S.meaning D.loan S.loan (sector_step self.old progress.block progress.done) around.old (turn self.new result) around.new }
    {
        let device = around.device;
        let block = progress.block;
        if block.count() == 0 {
            if self.ready {
                return self.finish(device, block);
            }
            return self.fail(device, block.address, Exception::NotReady);
        }
        if !self.ready {
            return self.fail_sector(device, false, progress, Exception::NotReady);
        }
        self.search_sector(around, progress)
    }
}
