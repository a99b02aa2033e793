// The records of a chain in order, each with its front.
ghost use Rattle.std.specs.Prelude.{◌≡◌, ◌<◌, ◌≤◌};
ghost use Rattle.std.specs.Iterator.{YieldsFirst, item_count};
ghost use Rattle.chained_pack.specs.Format.{directory, records_from};

use crate::image::Chains;
use crate::layout::RecordHead;

#[derive(Drop)]
pub(crate) struct Records<'a> {
    chains: Chains<'a>,
    // the record that comes next, zero past the end
    index: u16,
    // how many may still come
    most: u16,
    ghost within: { index ≤ (directory chains.image.bytes.now).count },
}

impl<'a> Records<'a> {
    pub(crate) fn of_chain(chains: Chains<'a>, chain: u16) -> Self
        requires { chain < 64 }
        ensures { (result.chains.image.bytes.now ≡ chains.entry.image.bytes.now) × ((result.index ≡ (directory chains.entry.image.bytes.now).first chain) × (result.most ≡ (directory chains.entry.image.bytes.now).count)) }
    {
        Records {
            chains,
            index: chains.image.first(chain),
            most: chains.image.count(),
        }
    }
}

impl<'a> Iterator for Records<'a> {
    type Item = (u16, RecordHead);

    ghost next_gives = { YieldsFirst (λ s. records_from s.chains.image.bytes.now s.most s.index) };

    ghost remaining = { item_count (λ s. records_from s.chains.image.bytes.now s.most s.index) };

    fn next(&mut self) -> Option<(u16, RecordHead)> {
        if self.index == 0 || self.most == 0 {
            return None;
        }
        let index = self.index;
        let front = self.chains.image.head(index);
        self.index = front.next;
        self.most -= 1;
        Some((index, front))
    }
}
