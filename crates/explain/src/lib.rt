// What an interrupt status byte and the status words say, bit by bit, in plain words.
#![tactic(auto)]

pub mod bit;
pub mod reason;
pub mod status_bit;
pub mod told;
