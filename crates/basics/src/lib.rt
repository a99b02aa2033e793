// What every layer shares: the numbers and words of refusals and faults, the table of marks, and the layer that
// has one.
#![tactic(auto)]

pub mod fault;
pub mod handed_back;
pub mod layer;
pub mod mark;
pub mod marks;
pub mod refusal;
