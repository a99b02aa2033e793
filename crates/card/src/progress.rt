// How far a data operation has come.
ghost use Rattle.std.specs.Prelude.{◌≡◌, ◌≤◌};
ghost use Rattle.card.specs.Blocks.{sector_now, argument, left};
ghost use Rattle.card.specs.Steps.{words_left, sector_address};

use crate::control_block::Block;
use drive::sector::SectorId;

// A block, and how many of its sectors are done.
#[derive(Clone, Copy)]
pub(crate) struct Progress {
    pub(crate) block: Block,
    pub(crate) done: u8,
}

impl Progress {
    // the sector that is searched for
    pub(crate) fn sector(self) -> u8
        ensures { result ≡ sector_now self.block self.done }
    {
        self.block.sector().wrapping_add(self.done)
    }

    // the ID that is searched for
    pub(crate) fn argument(self) -> SectorId
        ensures { result ≡ argument self.block self.done }
    {
        SectorId {
            flag: self.block.flag(),
            cylinder: self.block.cylinder(),
            head: self.block.head(),
            sector: self.sector(),
        }
    }

    // the bytes that the count still asks for
    pub(crate) fn left(self) -> u16
        ensures { result ≡ left self.block self.done }
    {
        self.block
            .count()
            .saturating_sub(u16::from(self.done) * 256)
    }

    // how many words of the sector the count still asks for
    pub(crate) fn words_left(self) -> usize
        ensures value { result ≡ words_left self.block self.done }
        ensures bound { result ≤ 128 }
    {
        usize::from(self.left().min(256)) / 2
    }

    // where in storage the sector's words begin
    pub(crate) fn address(self) -> u32
        ensures value { result ≡ sector_address self.block self.done }
        ensures bound { result ≤ 130815 }
    {
        u32::from(self.block.data_address()) + u32::from(self.done) * 256
    }
}
