// Marks are entered, lifted and asked for.
ghost use Rattle.std.specs.Prelude.{◌≡◌, true, false, [], is_err};
ghost use Rattle.basics.specs.Marks.{has, without, entered, entering};
ghost use Rattle.basics.specs.Table.{held};

use crate::mark::Mark;
use crate::marks::Marks;
use crate::refusal::Refusal;

impl<T: Mark, const N: usize> Marks<T, N> {
    // An empty table, whose free entries are filled with `filler`.
    pub fn new(filler: T) -> Self
        ensures { held result ≡ [] }
    {
        Marks {
            entries: [filler; N],
            used: 0,
        }
    }

    pub fn has(&self, x: &T) -> bool
        ensures { result ≡ has T.Mark.alike x.now (held self.now) }
    {
        x.is_among(&self.entries[..self.used])
    }

    // what entering would answer
    pub fn would_enter(&self, x: &T) -> Result<(), Refusal>
        ensures { result ≡ entering T.Mark.alike N x.now (held self.now) }
    {
        if self.has(x) || self.used < N {
            return Ok(());
        }
        Err(Refusal::MarksFull)
    }

    pub fn enter(&mut self, x: T) -> Result<(), Refusal>
        ensures answer { result ≡ entering T.Mark.alike N x (held self.old) }
        ensures after { held self.new ≡ entered T.Mark.alike N x (held self.old) }
        ensures again { has T.Mark.alike x (held self.old) ≡ true → self.new ≡ self.old }
        ensures refused { is_err result ≡ true → self.new ≡ self.old }
    {
        if self.has(&x) {
            return Ok(());
        }
        if self.used >= N {
            return Err(Refusal::MarksFull);
        }
        self.entries[self.used] = x;
        self.used += 1;
        Ok(())
    }

    pub fn lift(&mut self, x: &T)
        ensures after { held self.new ≡ without T.Mark.alike x.now (held self.old) }
        ensures unmarked { has T.Mark.alike x.now (held self.old) ≡ false → self.new ≡ self.old }
    {
        if !self.has(x) {
            return;
        }
        let mut count = 0;
        for i in 0..self.used {
            let y = self.entries[i];
            if !y.is(x) {
                self.entries[count] = y;
                count += 1;
            }
        }
        self.used = count;
    }
}
