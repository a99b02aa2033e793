// The processor's storage: what every make of it means, plain and keyed storage, and the parity layer over any.
#![tactic(auto)]

pub mod copy;
pub mod keyed;
mod lent;
pub mod parity;
pub mod plain;
pub mod storage;
