// What the card holds: registers, and no heap.
use crate::control_block::Block;
use answers::waiting::Waiting;

// Where the heads are: over which cylinder, and which of them is selected.
#[derive(Clone, Copy, PartialEq, Eq, Debug)]
pub struct Position {
    pub cylinder: u16,
    pub head: u8,
}

// The command that a control block is fetched for.
#[derive(Clone, Copy, PartialEq, Eq, Debug)]
pub enum Purpose {
    // an operation of Start
    Operation,
    // Start Cycle Steal Status
    Status,
}

// What the next step does. The sector state says how many sectors of its block are done.
#[derive(Clone, Copy)]
pub enum State {
    Idle,
    Fetching { purpose: Purpose, address: u16 },
    Moving { block: Block },
    Sector { block: Block, done: u8 },
    Status { block: Block },
}

#[derive(Clone, Copy)]
pub struct Card {
    pub position: Position,
    // the interrupt level and whether interrupts are enabled, as Prepare set them
    pub level: u8,
    pub enabled: bool,
    // whether the unit is ready
    pub ready: bool,
    pub state: State,
    // at most one interrupt waits
    pub waiting: Option<Waiting>,
    // status word 0: the residual address
    pub residual: u16,
    // status word 1: the reasons of exceptions
    pub errors: u16,
    // status word 2: the sector where a write ended
    pub write_sector: u16,
}
