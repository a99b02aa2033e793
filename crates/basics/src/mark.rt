// What can be marked, and whether it is among marks.
ghost use Rattle.std.specs.Prelude.{◌≡◌, Bool, Decides, nat_eq};
ghost use Rattle.basics.specs.Marks.{has};
ghost use Rattle.std.proofs.Common.{rules};

// What can be marked. Two marks are alike exactly if they are equal.
pub trait Mark: Copy {
    ghost alike: { Self → Self → Bool };

    fn is(&self, other: &Self) -> bool
        ensures { result ≡ alike self.now other.now };

    // whether one of the marks is this one
    fn is_among(&self, marks: &[Self]) -> bool
        ensures { result ≡ has alike self.now marks.now }
    {
        marks.iter().any(|mark| mark.is(self))
    }

    ghost decides: { (x y : Self) → Decides (alike x y) (x ≡ y) };
}

// A number marks itself.
impl Mark for u32 {
    ghost alike = { nat_eq };

    ghost decides = { Prim.search rules };

    fn is(&self, other: &u32) -> bool {
        *self == *other
    }

    // All are looked at, without a branch on each, so that several are compared at a time.
    fn is_among(&self, marks: &[u32]) -> bool {
        let mut found = false;
        for mark in marks {
            found |= *mark == *self;
        }
        found
    }
}
