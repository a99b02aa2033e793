// One real load through the card, as a run: a recipe written, verified and read back, and then a sector that is not there.
#![tactic(auto)]

pub mod load;
#[cfg(test)]
mod load_tests;
mod part;
