// A drive: what every make of it means, the search for a sector along a track, and the defect layer over any.
#![tactic(auto)]

pub mod defect;
pub mod defect_layer;
pub mod drive;
pub mod geometry;
mod lent;
pub mod search;
pub mod sector;
