// The orders of one side, the first by priority first.
ghost use Rattle.ordered.specs.Bounded.{items};
ghost use Rattle.std.proofs.Common.{rules};

use book::{Fault, Resting, Side};
use ordered::BoundedList;
use two_sided::BookSide;

const CAPACITY: usize = 128;

#[derive(Clone, Copy)]
pub struct Row {
    side: Side,
    orders: BoundedList<Resting, CAPACITY>,
}

impl BookSide for Row {
    ghost own = { λ row. row.side };

    ghost orders = { λ row. items row.orders };

    ghost few = { Prim.search rules };

    fn new(side: Side) -> Row {
        Row {
            side,
            orders: BoundedList::new(),
        }
    }

    fn clear(&mut self) {
        self.orders.clear();
    }

    fn count(&self) -> usize {
        self.orders.len()
    }

    fn look(&self, place: usize) -> Option<Resting> {
        self.orders.get(place)
    }

    fn find(&self, number: u32) -> Option<usize> {
        self.orders.find(number)
    }

    // By a `match`: in each arm the search knows its side when it is compiled, and tests no side at each order that it passes.
    fn enter(&mut self, order: Resting) -> Result<(), Fault> {
        match self.side {
            Side::Bid => self.orders.insert(order, Side::Bid)?,
            Side::Ask => self.orders.insert(order, Side::Ask)?,
        }
        Ok(())
    }

    fn take_out(&mut self, place: usize) -> Option<Resting> {
        self.orders.remove(place)
    }

    fn drop_first(&mut self) {
        self.orders.remove(0);
    }

    fn resize_first(&mut self, volume: u32) {
        if let Some(first) = self.orders.get(0) {
            self.orders.set(0, Resting { volume, ..first });
        }
    }
}
