// The plain book, which is kept in no order. Its sides are chosen here as those of any book are in `two_sided`, in a text of its
// own: what checks the books shares no code with them.
ghost use Rattle.std.specs.Prelude.{◌≡◌};
ghost use Rattle.book.specs.declared.side.Side.TheVariants.{Bid, Ask};

use crate::arrivals::Arrivals;
use crate::call::{Answer, Call};
use book::{Fault, Position, Resting, Side};

#[derive(Drop)]
pub(crate) struct Plain {
    bids: Arrivals,
    asks: Arrivals,
    ghost bids_side: { bids.side ≡ Bid },
    ghost asks_side: { asks.side ≡ Ask },
}

impl Plain {
    ghost use Rattle.book.specs.Lists.{enters};
    ghost use Rattle.book.specs.Sides.{on};
    ghost use Rattle.booktrial.specs.Arrivals.{arrival_at, arrived, first_on, place_of, taken_from, takes_from};
    ghost use Rattle.booktrial.specs.Calls.{no_orders, side_of, with_side};
    ghost use Rattle.booktrial.specs.Plain.{after_plainly, answered_plainly, found_plainly, removed_at, removes_at};
    ghost use Rattle.booktrial.specs.PlainLists.{plain_lists};

    pub(crate) fn new() -> Plain
        ensures { plain_lists result ≡ no_orders }
    {
        Plain {
            bids: Arrivals::new(Side::Bid),
            asks: Arrivals::new(Side::Ask),
        }
    }

    fn on(&self, side: Side) -> &Arrivals
        ensures side { result.now.side ≡ side }
        ensures orders { result.now.orders.items ≡ side_of side (plain_lists self.now) }
    {
        match side {
            Side::Bid => &self.bids,
            Side::Ask => &self.asks,
        }
    }

    // A side's orders, as they came.
    pub(crate) fn orders(&self, side: Side) -> &[Resting]
        ensures { result.now ≡ side_of side (plain_lists self.now) }
    {
        self.on(side).orders()
    }

    // The place of the order that came as number `came` on a side.
    pub(crate) fn place_of(&self, side: Side, came: usize, order: &Resting) -> usize
        ensures { result ≡ place_of side (side_of side (plain_lists self.now)) came order.now }
    {
        self.on(side).place_of(came, order)
    }

    pub(crate) fn first(&self, side: Side) -> Option<Resting>
        ensures { result ≡ first_on side (side_of side (plain_lists self.now)) }
    {
        self.on(side).first()
    }

    pub(crate) fn empty(&mut self)
        ensures { plain_lists self.new ≡ no_orders }
    {
        self.bids.empty();
        self.asks.empty();
    }

    fn enter(&mut self, side: Side, order: Resting) -> Result<(), Fault>
        ensures answer { result ≡ enters (side_of side (plain_lists self.old)) }
        ensures lists { plain_lists self.new ≡ with_side side (arrived order (side_of side (plain_lists self.old))) (plain_lists self.old) }
    {
        match side {
            Side::Bid => self.bids.enter(order),
            Side::Ask => self.asks.enter(order),
        }
    }

    fn take(&mut self, side: Side, volume: u32) -> Result<(), Fault>
        ensures answer { result ≡ takes_from volume (arrival_at side 0 (side_of side (plain_lists self.old))) }
        ensures lists { plain_lists self.new ≡ with_side side (taken_from volume (arrival_at side 0 (side_of side (plain_lists self.old))) (side_of side (plain_lists self.old))) (plain_lists self.old) }
    {
        match side {
            Side::Bid => self.bids.take(volume),
            Side::Ask => self.asks.take(volume),
        }
    }

    // The first place of a number, bids before asks.
    fn find(&self, number: u32) -> Result<Position, Fault>
        ensures { result ≡ found_plainly number (plain_lists self.now) }
    {
        if let Some(place) = self.bids.place_on(number) {
            return Ok(Position {
                side: Side::Bid,
                place,
            });
        }
        let place = self.asks.place_on(number).ok_or(Fault::Unknown)?;
        Ok(Position {
            side: Side::Ask,
            place,
        })
    }

    fn remove(&mut self, number: u32) -> Result<u32, Fault>
        ensures answer { result ≡ removes_at (found_plainly number (plain_lists self.old)) (plain_lists self.old) }
        ensures lists { plain_lists self.new ≡ removed_at (found_plainly number (plain_lists self.old)) (plain_lists self.old) }
    {
        let Position { side, place } = self.find(number)?;
        match side {
            Side::Bid => self.bids.remove(place),
            Side::Ask => self.asks.remove(place),
        }
    }

    pub(crate) fn call(&mut self, call: Call) -> Result<Answer, Fault>
        ensures answer { result ≡ answered_plainly call (plain_lists self.old) }
        ensures lists { plain_lists self.new ≡ after_plainly call (plain_lists self.old) }
    {
        match call {
            Call::Enter(side, order) => self.enter(side, order).map(|()| Answer::Done),
            Call::Take(side, volume) => self.take(side, volume).map(|()| Answer::Done),
            Call::Remove(number) => self.remove(number).map(Answer::Volume),
            Call::Find(number) => self.find(number).map(Answer::At),
        }
    }
}
