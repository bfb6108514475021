// The whole of a book: what changes it, above what reads it.
ghost use Rattle.std.specs.Prelude.{◌≡◌, ◌≤◌, [], length};
ghost use Rattle.book.specs.Listed.{listed};
ghost use Rattle.book.specs.Lists.{capacity, enters, entered, takes, taken, found, removes, bids_without, asks_without};
ghost use Rattle.book.specs.Sides.{on};

use crate::fault::Fault;
use crate::read::ReadBook;
use crate::resting::Resting;
use crate::side::Side;

// Where an order rests: its side, and its place there from 0.
#[derive(Clone, Copy, PartialEq, Eq, Debug)]
pub struct Position {
    pub side: Side,
    pub place: usize,
}

pub trait Book: ReadBook {
    // Clears both sides.
    fn empty(&mut self)
        ensures bids { Self.ReadBook.bids self.new ≡ [] }
        ensures asks { Self.ReadBook.asks self.new ≡ [] };

    // Where the first order of a number rests, bids before asks.
    fn find(&self, number: u32) -> Result<Position, Fault>
        ensures { result ≡ found number (Self.ReadBook.bids self.now) (Self.ReadBook.asks self.now) };

    // Puts an order into its place by priority.
    fn enter(&mut self, side: Side, order: Resting) -> Result<(), Fault>
        ensures answer { result ≡ enters (listed Self.ReadBook side self.old) }
        ensures bids { Self.ReadBook.bids self.new ≡ on side (entered side order (Self.ReadBook.bids self.old)) (Self.ReadBook.bids self.old) }
        ensures asks { Self.ReadBook.asks self.new ≡ on side (Self.ReadBook.asks self.old) (entered side order (Self.ReadBook.asks self.old)) };

    // Takes a volume from the first order of a side.
    fn take(&mut self, side: Side, volume: u32) -> Result<(), Fault>
        ensures answer { result ≡ takes volume (listed Self.ReadBook side self.old) }
        ensures bids { Self.ReadBook.bids self.new ≡ on side (taken volume (Self.ReadBook.bids self.old)) (Self.ReadBook.bids self.old) }
        ensures asks { Self.ReadBook.asks self.new ≡ on side (Self.ReadBook.asks self.old) (taken volume (Self.ReadBook.asks self.old)) };

    // Takes the order that `find` tells out of the book, and answers its volume.
    fn remove(&mut self, number: u32) -> Result<u32, Fault>
        ensures answer { result ≡ removes number (Self.ReadBook.bids self.old) (Self.ReadBook.asks self.old) }
        ensures bids { Self.ReadBook.bids self.new ≡ bids_without number (Self.ReadBook.bids self.old) (Self.ReadBook.asks self.old) }
        ensures asks { Self.ReadBook.asks self.new ≡ asks_without number (Self.ReadBook.bids self.old) (Self.ReadBook.asks self.old) };

    ghost few: { (b : Self) → (length (Self.ReadBook.bids b) ≤ capacity) × (length (Self.ReadBook.asks b) ≤ capacity) };
}
