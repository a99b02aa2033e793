// A table of marks of fixed size: what is entered stays until it is lifted, and a freed entry can be used again.
ghost use Rattle.std.specs.Prelude.{◌≡◌, ◌≤◌, length};

mod methods;

// kept: an array and a count beside it; an `ArrayVec` would ask of every mark that it have a default
// At most N marks, the oldest first in the entries that are used. What the others hold means nothing.
#[derive(Drop)]
pub struct Marks<T, const N: usize> {
    entries: [T; N],
    used: usize,
    ghost few: { used ≤ N },
    ghost long: { length entries ≡ N },
}
