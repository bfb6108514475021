// The orders of a side that count for the average: from the first visible one on.
ghost use Rattle.std.specs.Prelude.{◌≡◌, ◌^◌, ◌<◌, length, not};
ghost use Rattle.book.specs.Listed.{listed};
ghost use Rattle.book.specs.Reading.{left as rest};
ghost use Rattle.pricing.specs.Counting.{left_out, LeavesOutTheBetterHidden};

use book::{Orders, ReadBook, Resting, Side};

fn is_hidden(order: &Resting) -> bool
    ensures { result ≡ not order.now.visible }
{
    !order.visible
}

// How many hidden orders stand in front of the first visible one of what an iterator over a side has still to give.
fn hidden_in_front<B: ReadBook>(orders: Orders<'_, B>, side: Side) -> usize
    ensures answer { result ≡ left_out (rest B.ReadBook orders.entry) }
    ensures meaning { LeavesOutTheBetterHidden side result (rest B.ReadBook orders.entry) }
    ensures countable { length (rest B.ReadBook orders.entry) < 2 ^ 64 }
{
    orders.take_while(|order| is_hidden(order)).count()
}

// How many hidden orders stand in front of the first visible one. They are left out of the average.
pub fn left_out<B: ReadBook>(book: &B, side: Side) -> usize
    ensures answer { result ≡ left_out (listed B.ReadBook side book.now) }
    ensures meaning { LeavesOutTheBetterHidden side result (listed B.ReadBook side book.now) }
    ensures countable { length (listed B.ReadBook side book.now) < 2 ^ 64 }
{
    hidden_in_front(Orders::of(book, side), side)
}
