// Scripts: what their lines say, and calls and answers as lines.
#![tactic(auto)]

mod calls;
pub mod hex;
mod kinds;
pub mod line;
mod looks;
mod numbers;
pub mod printed;
pub mod read;
pub mod reason;
mod set_ups;
mod take;
mod verb;
pub mod words;
