// The orders of a ladder, one by one, the first by priority first.
ghost use Rattle.std.specs.Iterator.{YieldsFirst, item_count};

use crate::ladder::Ladder;
use crate::level::Seat;
use book::Resting;
use ordered::Keyed;

#[derive(Drop)]
pub(crate) struct Walk<'a> {
    pub(crate) ladder: &'a Ladder,
    // Where the next order stands, if one is left.
    pub(crate) seat: Option<Seat>,
}

impl<'a> Walk<'a> {
    ghost use Rattle.std.specs.Prelude.{◌≡◌};
    ghost use Rattle.book.specs.Lists.{placed};
    ghost use Rattle.ladder_book.specs.Walks.{CanWalk, left};

    // How many orders come before the first of a number.
    pub(crate) fn before(mut self, number: u32) -> Option<usize>
        requires { CanWalk self }
        ensures { result ≡ placed number 0 (left self.entry) }
    {
        self.position(|order| order.has_key(number))
    }
}

impl<'a> Iterator for Walk<'a> {
    ghost use Rattle.ladder_book.specs.Walks.{CanWalk, left};

    type Item = Resting;

    ghost can_next = { CanWalk };

    ghost next_gives = { YieldsFirst left };

    ghost remaining = { item_count left };

    fn next(&mut self) -> Option<Resting> {
        let seat = self.seat?;
        self.seat = self.ladder.after(seat);
        Some(self.ladder.order(seat.place))
    }
}
