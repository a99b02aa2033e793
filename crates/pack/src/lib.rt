// Packs: drives that are held in bytes.
#![tactic(auto)]

pub mod id_record;
pub mod plain_pack;
pub mod sector_at;
