// The orders of one side of any book, one by one.
ghost use Rattle.std.specs.Prelude.{◌^◌, ◌<◌, length};
ghost use Rattle.book.specs.Listed.{listed};

use crate::read::ReadBook;
use crate::resting::Resting;
use crate::side::Side;

// Looked at place after place, until there is none: so no order is tested against their count too.
#[derive(Drop)]
pub struct Orders<'a, B: ReadBook> {
    book: &'a B,
    side: Side,
    place: usize,
    // The place after an order's is a number too.
    ghost countable: { length (listed B.ReadBook side book.now) < 2 ^ 64 },
}

impl<'a, B: ReadBook> Orders<'a, B> {
    ghost use Rattle.std.specs.Prelude.{◌≡◌, drop};
    ghost use Rattle.std.specs.List.{slice_get};
    ghost use Rattle.book.specs.Reading.{left};

    // All orders of a side.
    pub fn of(book: &'a B, side: Side) -> Orders<'a, B>
        ensures { left B.ReadBook result ≡ listed B.ReadBook side book.now }
    {
        Orders::from_place(book, side, 0)
    }

    // Those from a place on.
    pub fn from_place(book: &'a B, side: Side, place: usize) -> Orders<'a, B>
        ensures { left B.ReadBook result ≡ drop place (listed B.ReadBook side book.now) }
    {
        // For `countable` alone.
        let _ = book.count(side);
        Orders { book, side, place }
    }

    // The next order, without going past it.
    fn peek(&self) -> Option<Resting>
        ensures { result ≡ slice_get (listed B.ReadBook self.now.side self.now.book.now) self.now.place }
    {
        self.book.look(self.side, self.place)
    }
}

impl<'a, B: ReadBook> Iterator for Orders<'a, B> {
    ghost use Rattle.std.specs.Iterator.{YieldsFirst, item_count};
    ghost use Rattle.book.specs.Reading.{left};

    type Item = Resting;

    ghost next_gives = { YieldsFirst (left B.ReadBook) };

    ghost remaining = { item_count (left B.ReadBook) };

    fn next(&mut self) -> Option<Resting> {
        let order = self.peek()?;
        self.place += 1;
        Some(order)
    }
}
