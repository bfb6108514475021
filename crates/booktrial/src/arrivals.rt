// One side of the plain book: its orders as they came. An order's place is found by counting those that go before it.
ghost use Rattle.std.specs.Prelude.{◌≡◌, ◌<◌, [], IfSome, length};
ghost use Rattle.book.specs.Lists.{enters};
ghost use Rattle.booktrial.specs.Arrivals.{arrival_at, arrived, first_on, goes_before, place_of, place_on, removed_from, taken_from, takes_from, volume_from};

use arrayvec::ArrayVec;
use book::{Fault, Resting, Side};

const CAPACITY: usize = 128;

#[derive(Drop)]
pub(crate) struct Arrivals {
    pub(crate) side: Side,
    pub(crate) orders: ArrayVec<Resting, CAPACITY>,
}

// Whether an order goes before another of its side, by the rule's words and not by the books' own `is_ahead`; of two that are equal in it, the earlier does.
fn goes_before(side: Side, order: &Resting, other: &Resting, earlier: bool) -> bool
    ensures { result ≡ goes_before side order.now other.now earlier }
{
    if order.limit != other.limit {
        return match side {
            Side::Bid => order.limit > other.limit,
            Side::Ask => order.limit < other.limit,
        };
    }
    if order.visible != other.visible {
        return order.visible;
    }
    if order.number != other.number {
        return order.number < other.number;
    }
    earlier
}

// That the side stays is said of each call, as of a book's sides.
impl Arrivals {
    pub(crate) fn new(side: Side) -> Arrivals
        ensures side { result.side ≡ side }
        ensures orders { result.orders.items ≡ [] }
    {
        Arrivals {
            side,
            orders: ArrayVec::new(),
        }
    }

    pub(crate) fn orders(&self) -> &[Resting]
        ensures { result.now ≡ self.now.orders.items }
    {
        self.orders.as_slice()
    }

    // The place in the book of the order that came as number `came`, from 0: the two as `enumerate` gives them.
    pub(crate) fn place_of(&self, came: usize, order: &Resting) -> usize
        ensures { result ≡ place_of self.now.side self.now.orders.items came order.now }
    {
        self.orders()
            .iter()
            .enumerate()
            .filter(|(i, other)| *i != came && goes_before(self.side, other, order, *i < came))
            .count()
    }

    // The order at a place, with when it came.
    fn at(&self, place: usize) -> Option<(usize, Resting)>
        ensures value { result ≡ arrival_at self.now.side place self.now.orders.items }
        ensures within { IfSome result (λ p. p.0 < length self.now.orders.items) }
    {
        self.orders()
            .iter()
            .copied()
            .enumerate()
            .find(|(came, order)| self.place_of(*came, order) == place)
    }

    pub(crate) fn first(&self) -> Option<Resting>
        ensures { result ≡ first_on self.now.side self.now.orders.items }
    {
        self.at(0).map(|(_, order)| order)
    }

    // The first place of a number.
    pub(crate) fn place_on(&self, number: u32) -> Option<usize>
        ensures { result ≡ place_on self.now.side number self.now.orders.items }
    {
        self.orders()
            .iter()
            .enumerate()
            .filter(|(_, order)| order.number == number)
            .map(|(came, order)| self.place_of(came, order))
            .min()
    }

    pub(crate) fn empty(&mut self)
        ensures side { self.new.side ≡ self.old.side }
        ensures orders { self.new.orders.items ≡ [] }
    {
        self.orders.clear();
    }

    pub(crate) fn enter(&mut self, order: Resting) -> Result<(), Fault>
        ensures answer { result ≡ enters self.old.orders.items }
        ensures side { self.new.side ≡ self.old.side }
        ensures orders { self.new.orders.items ≡ arrived order self.old.orders.items }
    {
        self.orders.try_push(order).map_err(|_| Fault::Full)
    }

    pub(crate) fn take(&mut self, volume: u32) -> Result<(), Fault>
        ensures answer { result ≡ takes_from volume (arrival_at self.old.side 0 self.old.orders.items) }
        ensures side { self.new.side ≡ self.old.side }
        ensures orders { self.new.orders.items ≡ taken_from volume (arrival_at self.old.side 0 self.old.orders.items) self.old.orders.items }
    {
        let (came, first) = self.at(0).ok_or(Fault::Range)?;
        if volume == 0 || volume > first.volume {
            return Err(Fault::Range);
        }
        if volume == first.volume {
            self.orders.remove(came);
        } else {
            self.orders[came] = Resting {
                volume: first.volume - volume,
                ..first
            };
        }
        Ok(())
    }

    pub(crate) fn remove(&mut self, place: usize) -> Result<u32, Fault>
        ensures answer { result ≡ volume_from (arrival_at self.old.side place self.old.orders.items) }
        ensures side { self.new.side ≡ self.old.side }
        ensures orders { self.new.orders.items ≡ removed_from (arrival_at self.old.side place self.old.orders.items) self.old.orders.items }
    {
        let (came, order) = self.at(place).ok_or(Fault::Unknown)?;
        self.orders.remove(came);
        Ok(order.volume)
    }
}
