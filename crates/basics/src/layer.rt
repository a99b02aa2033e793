// A layer over something: what lies below, with marks on some of its words or places.
ghost use Rattle.std.specs.Prelude.{◌≡◌, Bool, true, false, [], is_err, if◌then◌else◌, Ok};
ghost use Rattle.basics.specs.Marks.{has, without, entered, entering, where_there};
ghost use Rattle.basics.specs.Table.{held};
ghost use Rattle.std.specs.Borrow.{sem};

use crate::mark::Mark;
use crate::marks::Marks;
use crate::refusal::Refusal;
use std::marker::PhantomData;

// How far what lies below extends: whether a mark falls on something that is there.
pub trait Extent<B, M> {
    ghost reaches: { B → M → Bool };

    fn reaches(below: &B, mark: &M) -> bool
        ensures { result ≡ reaches below.now mark.now };
}

// An extent whose layer can be taken off, so that its marks are put over something else.
pub trait ComesOff {}

// What lies below, with at most N marks. Only who can make an extent can write what lies below, or the marks, by it.
#[derive(Drop)]
pub struct Layer<B, M, E, const N: usize> {
    below: B,
    marks: Marks<M, N>,
    extent: PhantomData<E>,
}

impl<B, M: Mark + Default, E: Extent<B, M> + ComesOff, const N: usize> Layer<B, M, E, N> {
    // Under marks that were kept.
    pub fn over(below: B, marks: Marks<M, N>) -> Self
        ensures below { result.below ≡ below }
        ensures marks { result.marks ≡ marks }
    {
        Layer {
            below,
            marks,
            extent: PhantomData,
        }
    }

    // Takes the layer off; the marks are given apart.
    pub fn apart(self) -> (B, Marks<M, N>)
        ensures { result ≡ (self.below, self.marks) }
    {
        (self.below, self.marks)
    }
}

impl<B, M: Mark + Default, E: Extent<B, M>, const N: usize> Layer<B, M, E, N> {
    ghost use Rattle.basics.specs.Lends.{lends_below, lends_marks};

    // With nothing marked.
    pub fn new(below: B) -> Self
        ensures below { result.below ≡ below }
        ensures marks { held result.marks ≡ [] }
    {
        Layer {
            below,
            marks: Marks::new(M::default()),
            extent: PhantomData,
        }
    }

    // Lends what lies below for writing.
    pub fn below_mut(&mut self, _extent: &E) -> &mut B
        ensures* writes_back { sem 𝓛 (lends_below B.row M.row E.row N.row self.entry result) }
        ensures value { result.now ≡ self.old.below }
    {
        &mut self.below
    }

    // Lends the marks for writing.
    pub fn marks_mut(&mut self, _extent: &E) -> &mut Marks<M, N>
        ensures* writes_back { sem 𝓛 (lends_marks B.row M.row E.row N.row self.entry result) }
        ensures value { result.now ≡ self.old.marks }
    {
        &mut self.marks
    }

    // Lends what lies below, which has no marks.
    pub fn below(&self) -> &B
        ensures { result.now ≡ self.now.below }
    {
        &self.below
    }

    // what marking would answer
    pub fn would_mark(&self, mark: M) -> Result<(), Refusal>
        ensures { result ≡ where_there (E.reaches self.now.below mark) (entering M.alike N mark (held self.now.marks)) }
    {
        self.would_lift(mark)?;
        self.marks.would_enter(&mark)
    }

    // what lifting a mark would answer
    pub fn would_lift(&self, mark: M) -> Result<(), Refusal>
        ensures { result ≡ where_there (E.reaches self.now.below mark) (Ok tt) }
    {
        if E::reaches(&self.below, &mark) {
            Ok(())
        } else {
            Err(Refusal::NoSuchPlace)
        }
    }

    // Marking again does nothing.
    pub fn mark(&mut self, mark: M) -> Result<(), Refusal>
        ensures answer { result ≡ where_there (E.reaches self.old.below mark) (entering M.alike N mark (held self.old.marks)) }
        ensures below { self.new.below ≡ self.old.below }
        ensures marks { held self.new.marks ≡ (if E.reaches self.old.below mark then entered M.alike N mark (held self.old.marks) else held self.old.marks) }
        ensures refused { is_err result ≡ true → self.new ≡ self.old }
        ensures again { has M.alike mark (held self.old.marks) ≡ true → self.new ≡ self.old }
    {
        self.would_lift(mark)?;
        self.marks.enter(mark)
    }

    // Lifts a mark; lifting one that is not there does nothing.
    pub fn lift(&mut self, mark: M) -> Result<(), Refusal>
        ensures answer { result ≡ where_there (E.reaches self.old.below mark) (Ok tt) }
        ensures below { self.new.below ≡ self.old.below }
        ensures marks { held self.new.marks ≡ (if E.reaches self.old.below mark then without M.alike mark (held self.old.marks) else held self.old.marks) }
        ensures refused { is_err result ≡ true → self.new ≡ self.old }
        ensures unmarked { has M.alike mark (held self.old.marks) ≡ false → self.new ≡ self.old }
    {
        self.would_lift(mark)?;
        self.marks.lift(&mark);
        Ok(())
    }

    pub fn is_marked(&self, mark: M) -> bool
        ensures { result ≡ has M.alike mark (held self.now.marks) }
    {
        self.marks.has(&mark)
    }
}
