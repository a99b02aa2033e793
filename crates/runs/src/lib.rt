// Runs: lists of calls over one card, one drive and one storage, with the law that holds of every run.
#![tactic(auto)]

pub mod both;
pub mod entry;
pub mod examples;
pub mod run;
pub mod so_far;
