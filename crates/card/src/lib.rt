// The card: its registers and the six calls, proved against the rules.
#![tactic(auto)]

pub mod call;
pub mod calls;
pub mod carry_out;
pub mod control_block;
mod progress;
pub mod registers;
mod sectors;
pub mod steps;
pub mod surroundings;
mod transfer;
