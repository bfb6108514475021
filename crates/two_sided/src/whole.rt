// The book of two sides.
ghost use Rattle.std.specs.Prelude.{◌≡◌, ⊤, []};
ghost use Rattle.book.specs.declared.side.Side.TheVariants.{Bid, Ask};

use crate::book_side::BookSide;
use book::{Book, Fault, Position, ReadBook, Resting, Side};
use std::alloc::AllocError;

pub struct TwoSided<S: BookSide> {
    bids: S,
    asks: S,
    // Each is of its own side.
    ghost buys: { S.own bids ≡ Bid },
    ghost sells: { S.own asks ≡ Ask },
}

impl<S: BookSide + Copy> Copy for TwoSided<S> {}

// By hand, since no derive goes with a ghost field and a type parameter.
impl<S: BookSide + Copy> Clone for TwoSided<S> {
    ghost is_clone = { λ old new. new ≡ old };

    ghost is_infallible = { λ _. ⊤ };

    fn clone(&self) -> Result<TwoSided<S>, AllocError> {
        Ok(*self)
    }
}

impl<S: BookSide> TwoSided<S> {
    pub fn new() -> TwoSided<S>
        ensures bids { S.orders result.bids ≡ [] }
        ensures asks { S.orders result.asks ≡ [] }
    {
        TwoSided {
            bids: S::new(Side::Bid),
            asks: S::new(Side::Ask),
        }
    }
}

impl<S: BookSide> ReadBook for TwoSided<S> {
    ghost bids = { λ b. S.orders b.bids };

    ghost asks = { λ b. S.orders b.asks };

    fn count(&self, side: Side) -> usize {
        match side {
            Side::Bid => self.bids.count(),
            Side::Ask => self.asks.count(),
        }
    }

    fn look(&self, side: Side, place: usize) -> Option<Resting> {
        match side {
            Side::Bid => self.bids.look(place),
            Side::Ask => self.asks.look(place),
        }
    }
}

impl<S: BookSide> Book for TwoSided<S> {
    ghost few = { λ b. (S.few b.bids, S.few b.asks) };

    fn empty(&mut self) {
        self.bids.clear();
        self.asks.clear();
    }

    fn find(&self, number: u32) -> Result<Position, Fault> {
        if let Some(place) = self.bids.find(number) {
            return Ok(Position {
                side: Side::Bid,
                place,
            });
        }
        let place = self.asks.find(number).ok_or(Fault::Unknown)?;
        Ok(Position {
            side: Side::Ask,
            place,
        })
    }

    fn enter(&mut self, side: Side, order: Resting) -> Result<(), Fault> {
        match side {
            Side::Bid => self.bids.enter(order),
            Side::Ask => self.asks.enter(order),
        }
    }

    fn take(&mut self, side: Side, volume: u32) -> Result<(), Fault> {
        match side {
            Side::Bid => self.bids.take(volume),
            Side::Ask => self.asks.take(volume),
        }
    }

    fn remove(&mut self, number: u32) -> Result<u32, Fault> {
        let Position { side, place } = self.find(number)?;
        let order = match side {
            Side::Bid => self.bids.take_out(place),
            Side::Ask => self.asks.take_out(place),
        };
        order.map(|order| order.volume).ok_or(Fault::Unknown)
    }
}
