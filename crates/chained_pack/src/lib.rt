// The chained pack: a drive held in numbered records, chained by track.
#![tactic(auto)]

mod chain;
pub mod chained;
mod check;
mod image;
mod layout;
mod records;
