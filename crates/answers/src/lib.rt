// What the calls of the card answer, with the number, word, layer and code of each case.
#![tactic(auto)]

pub mod answer;
pub mod waiting;
