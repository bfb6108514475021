// A book that can only be read: two lists that the caller lends.
ghost use Rattle.std.specs.Prelude.{◌≡◌};
ghost use Rattle.book.specs.Sides.{on};

use crate::read::ReadBook;
use crate::resting::Resting;
use crate::side::Side;

#[derive(Clone, Copy)]
pub struct Snapshot<'a> {
    pub bids: &'a [Resting],
    pub asks: &'a [Resting],
}

impl<'a> Snapshot<'a> {
    fn listed(&self, side: Side) -> &'a [Resting]
        ensures { result.now ≡ on side self.now.bids.now self.now.asks.now }
    {
        match side {
            Side::Bid => self.bids,
            Side::Ask => self.asks,
        }
    }
}

impl<'a> ReadBook for Snapshot<'a> {
    ghost bids = { λ b. b.bids.now };

    ghost asks = { λ b. b.asks.now };

    fn count(&self, side: Side) -> usize {
        self.listed(side).len()
    }

    fn look(&self, side: Side, place: usize) -> Option<Resting> {
        self.listed(side).get(place).copied()
    }
}
