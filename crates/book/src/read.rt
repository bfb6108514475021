// The read half of a book: what any book tells, by the two lists that it stands for.
ghost use Rattle.std.specs.Prelude.{◌≡◌, List, length};
ghost use Rattle.std.specs.List.{slice_get};
ghost use Rattle.book.specs.Sides.{on};
ghost use Rattle.book.specs.declared.resting.Resting.{Resting};

use crate::resting::Resting;
use crate::side::Side;

pub trait ReadBook {
    ghost bids: { Self → List Resting };

    ghost asks: { Self → List Resting };

    // How many orders rest on the side.
    fn count(&self, side: Side) -> usize
        ensures { result ≡ length (on side (bids self.now) (asks self.now)) };

    // The order at a place of the side, from 0; none past the end.
    fn look(&self, side: Side, place: usize) -> Option<Resting>
        ensures { result ≡ slice_get (on side (bids self.now) (asks self.now)) place };
}
