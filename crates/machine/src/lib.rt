// The machine that a script works on: any storage, any pack, their layers and the card's run over them; and what is shown of it.
#![tactic(auto)]

pub mod any_pack;
pub mod any_storage;
pub mod fresh_pack;
pub mod machine;
pub mod not_fresh;
pub mod sums;
mod tracks;
