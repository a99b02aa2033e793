// A defect: what of a place can no longer be read as it was recorded.
ghost use Rattle.drive.specs.Defects.{same_defect};
ghost use Rattle.std.proofs.Common.{rules};

use crate::geometry::Track;
use basics::mark::Mark;

// The two fields recorded at a place.
#[derive(Clone, Copy, PartialEq, Eq, Debug, Default)]
pub enum Field {
    #[default]
    Id,
    Data,
}

#[derive(Clone, Copy, PartialEq, Eq, Debug, Default)]
pub struct Defect {
    pub field: Field,
    pub track: Track,
    pub place: u8,
}

impl Mark for Defect {
    ghost alike = { same_defect };

    ghost decides = { Prim.search rules };

    // kept: field by field, the field first, in which most differ; by `==` a search under 32 marks takes a tenth longer
    fn is(&self, other: &Defect) -> bool {
        self.field == other.field
            && self.track.cylinder == other.track.cylinder
            && self.track.head == other.track.head
            && self.place == other.place
    }
}
