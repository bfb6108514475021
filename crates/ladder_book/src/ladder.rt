// The memory of one side: levels in order, each with a queue of orders. This layout is the one thing that contracts fix by
// conditions, the ghost fields, and not by value: which place an order takes is nobody's concern.
ghost use Rattle.std.specs.Prelude.{◌≡◌, ℕ, ◌<◌, ◌≤◌, ◌++◌, length, take, drop};
ghost use Rattle.ordered.specs.Bounded.{items};
ghost use Rattle.ordered.specs.Order.{InOrder};
ghost use Rattle.book.specs.Priority.{ahead};
ghost use Rattle.ladder_book.specs.Queues.{at, bare, sign, level_at, queue, ids, ends, nexts, occurs, once, records, book as orders_of, Falls};

use crate::level::{Level, Node, Seat};
use crate::links::{give_back, lead, lessen, link, places, put, set_volume};
use crate::walk::Walk;
use book::{Fault, Resting, Side, Sign};
use ordered::{BoundedList, Ordered};
use two_sided::BookSide;

pub const CAPACITY: usize = 128;

#[derive(Clone, Copy)]
pub struct Ladder {
    side: Side,
    // In fixed memory, linked by their places.
    places: [Node; CAPACITY],
    // The places that hold no order are those from `count` on: a stack that grows down, so that `count` is how many orders
    // there are, and to take a place or give one back can never be refused, as it could by a bounded list. A byte names a place,
    // which keeps a ladder small to copy.
    slots: [u8; CAPACITY],
    count: usize,
    // The worst level first, so that to take the best out moves none.
    levels: BoundedList<Level, CAPACITY>,
    ghost wide: { length places ≡ 128 },
    ghost room: { count ≤ 128 },
    ghost held: { length (orders_of (records places) (nexts places) (items levels)) ≡ count },
    // Each place is in one queue, once, or is free.
    ghost apart: { (k : ℕ) → occurs k (ids (nexts places) (items levels) ++ drop count slots) ≡ once k },
    ghost filled: { (k : ℕ) → k < length (items levels) → 0 < (level_at (items levels) k).size },
    // The orders of a queue have their level's limit and mark.
    ghost keyed: { (k i : ℕ) → k < length (items levels) → 1 ≤ occurs i (queue (nexts places) (level_at (items levels) k)) → bare (at (records places) i) ≡ sign (level_at (items levels) k) },
    ghost tailed: { (k : ℕ) → k < length (items levels) → (level_at (items levels) k).tail ≡ ends 0 (queue (nexts places) (level_at (items levels) k)) },
    // No two levels have the same limit and mark, and the better stand behind the worse.
    ghost falls: { Falls side (items levels) },
    // So an order that is not ahead of the last of a queue is ahead of none of it.
    ghost ordered: { InOrder (ahead side) (orders_of (records places) (nexts places) (items levels)) },
}

// The seats of its orders, and what is put in and taken out there.
// That the side stays is said of each call, as of `BookSide`'s.
impl Ladder {
    ghost use Rattle.std.specs.Prelude.{◌+◌, ◌-◌, true, false, [], Some, MatchOption, slice_index};
    ghost use Rattle.std.specs.List.{remove, slice_get};
    ghost use Rattle.ordered.specs.Order.{inserted};
    ghost use Rattle.ladder_book.specs.Listed.{Holds, level_of, listed, Located, Past, place_of, SeatAt, Seated, Sits};
    ghost use Rattle.ladder_book.specs.Walks.{CanWalk, left};
    ghost use Rattle.two_sided.specs.Resized.{resized};

    // The order at a place.
    pub(crate) fn order(&self, place: usize) -> Resting
        requires { place < 128 }
        ensures { result ≡ at (records self.now.places) place }
    {
        self.places[place].order
    }

    // The seat at the front of a level's queue.
    fn front(&self, level: usize) -> Seat
        requires { level < length (items self.now.levels) }
        ensures sits { Sits self.now result }
        ensures level { result.level ≡ level }
        ensures passed { result.passed ≡ 0 }
    {
        let head = self.levels.as_slice()[level].head;
        Seat {
            level,
            passed: 0,
            last: head,
            place: head,
        }
    }

    // The seat one order further back.
    fn behind(&self, seat: Seat) -> Seat
        requires { Holds self.now seat }
        ensures sits { Sits self.now result }
        ensures level { result.level ≡ seat.level }
        ensures passed { result.passed ≡ seat.passed + 1 }
    {
        Seat {
            level: seat.level,
            passed: seat.passed + 1,
            last: seat.place,
            place: self.places[seat.place].next,
        }
    }

    // The seat at the back of a level's queue, which its tail tells.
    fn back(&self, level: usize) -> Seat
        requires { level < length (items self.now.levels) }
        ensures sits { Sits self.now result }
        ensures level { result.level ≡ level }
        ensures passed { result.passed ≡ (level_at (items self.now.levels) level).size }
        ensures low { result.last < 128 }
    {
        let Level { tail, size, .. } = self.levels.as_slice()[level];
        Seat {
            level,
            passed: size,
            last: tail,
            place: tail,
        }
    }

    // The seat so many steps down a level's queue.
    fn along(&self, level: usize, steps: usize) -> Seat
        requires level { level < length (items self.now.levels) }
        requires steps { steps < (level_at (items self.now.levels) level).size }
        ensures sits { Sits self.now result }
        ensures level { result.level ≡ level }
        ensures passed { result.passed ≡ steps }
    {
        let mut seat = self.front(level);
        for _ in 0..steps {
            seat = self.behind(seat);
        }
        seat
    }

    // The seat at which the order at a place of the list stands, by the sizes of the levels from the best on.
    fn locate(&self, place: usize) -> Option<Seat>
        ensures { MatchOption result (Past self.now place) (Located self.now place) }
    {
        let levels = self.levels.as_slice();
        let mut steps = place;
        // By number, which is how a seat names its level. (Over `enumerate().rev()` the proof did not close.)
        for level in (0..levels.len()).rev() {
            let size = levels[level].size;
            if steps < size {
                return Some(self.along(level, steps));
            }
            steps -= size;
        }
        None
    }

    // The seat of the first order.
    fn first(&self) -> Option<Seat>
        ensures { SeatAt self.now 0 result }
    {
        let best = self.levels.len().checked_sub(1)?;
        Some(self.front(best))
    }

    // The seat of the order after one: the next in its level, or the first of the next worse.
    pub(crate) fn after(&self, seat: Seat) -> Option<Seat>
        requires { Holds self.now seat }
        ensures { SeatAt self.now (place_of self.now seat + 1) result }
    {
        let behind = self.behind(seat);
        if behind.passed < self.levels.as_slice()[seat.level].size {
            return Some(behind);
        }
        let worse = seat.level.checked_sub(1)?;
        Some(self.front(worse))
    }

    // All orders, the first by priority first.
    fn walk(&self) -> Walk<'_>
        ensures can { CanWalk result }
        ensures all { left result ≡ listed self.now }
    {
        Walk {
            ladder: self,
            seat: self.first(),
        }
    }

    // Takes the order at a seat out.
    fn unlink(&mut self, seat: Seat)
        requires { Holds self.old seat }
        ensures list { listed self.new ≡ remove (listed self.old) (place_of self.old seat) }
        ensures side { self.new.side ≡ self.old.side }
    {
        let after = self.places[seat.place].next;
        lead(&mut self.places, seat, after);
        lessen(&mut self.levels, seat, after);
        self.count = give_back(&mut self.slots, self.count, seat.place);
    }

    // Sets the volume of the first order, which stands at a seat.
    fn resize(&mut self, seat: Seat, volume: u32)
        requires holds { Holds self.old seat }
        requires first { place_of self.old seat ≡ 0 }
        ensures list { listed self.new ≡ resized volume (listed self.old) }
        ensures side { self.new.side ≡ self.old.side }
    {
        set_volume(&mut self.places, seat.place, volume);
    }

    // The place that the next order takes.
    fn spare(&self) -> usize
        requires { length (listed self.now) < 128 }
        ensures is { result ≡ slice_index self.now.slots self.now.count }
        ensures low { result < 128 }
    {
        self.slots[self.count] as usize
    }

    // The seat that an order has by priority in a level's queue, found from the front on.
    fn seek(&self, level: usize, order: &Resting) -> Seat
        requires { level < length (items self.now.levels) }
        ensures seated { Seated self.now order.now result }
        ensures level { result.level ≡ level }
    {
        let mut seat = self.front(level);
        for _ in 0..self.levels.as_slice()[level].size {
            if order.is_ahead(&self.order(seat.place), self.side) {
                return seat;
            }
            seat = self.behind(seat);
        }
        seat
    }

    // That seat: the back, with no walk, where the order is not ahead of the last.
    fn seat(&self, level: usize, order: &Resting) -> Seat
        requires { level < length (items self.now.levels) }
        ensures seated { Seated self.now order.now result }
        ensures level { result.level ≡ level }
    {
        let back = self.back(level);
        if order.is_ahead(&self.order(back.last), self.side) {
            self.seek(level, order)
        } else {
            back
        }
    }

    // Puts an order at its seat in the queue of a level of its limit and mark.
    fn join(&mut self, seat: Seat, order: Resting)
        requires room { length (listed self.old) < 128 }
        requires seated { Seated self.old order seat }
        requires sign { sign (level_of self.old seat) ≡ bare order }
        ensures list { listed self.new ≡ inserted (ahead self.old.side) order (listed self.old) }
        ensures side { self.new.side ≡ self.old.side }
    {
        let slot = self.spare();
        let level = self.levels.as_slice()[seat.level];
        self.levels.set(seat.level, level.grown(seat, slot));
        link(&mut self.places, seat, slot, order);
        self.count += 1;
    }

    // Opens a level for an order, where the levels from `place` on come before it and the others behind.
    fn open(&mut self, place: usize, order: Resting)
        requires room { length (listed self.old) < 128 }
        requires place { place ≤ length (items self.old.levels) }
        requires better { (k : ℕ) → place ≤ k → k < length (items self.old.levels) → ahead self.old.side (sign (level_at (items self.old.levels) k)) (bare order) ≡ true }
        requires worse { 0 < place → ahead self.old.side (bare order) (sign (level_at (items self.old.levels) (place - 1))) ≡ true }
        ensures list { listed self.new ≡ inserted (ahead self.old.side) order (listed self.old) }
        ensures side { self.new.side ≡ self.old.side }
    {
        let slot = self.spare();
        // There is room, since each level has an order.
        let _ = self.levels.insert_at(place, Level::alone(order, slot));
        put(&mut self.places, slot, order);
        self.count += 1;
    }

    // How many levels, from the worst on, do not come before an order.
    fn rung(&self, order: Resting) -> usize
        ensures within { result ≤ length (items self.now.levels) }
        ensures better { (k : ℕ) → result ≤ k → k < length (items self.now.levels) → ahead self.now.side (sign (level_at (items self.now.levels) k)) (bare order) ≡ true }
        ensures rest { 0 < result → ahead self.now.side (sign (level_at (items self.now.levels) (result - 1))) (bare order) ≡ false }
    {
        let side = self.side;
        let sign = Sign::from(order);
        // (By a `match`: with `map_or` the proof did not close.)
        match self
            .levels
            .as_slice()
            .iter()
            .rposition(|level| !level.sign.is_ahead(&sign, side))
        {
            Some(level) => level + 1,
            None => 0,
        }
    }
}

impl BookSide for Ladder {
    ghost use Rattle.std.proofs.Common.{rules};
    ghost use Rattle.ladder_book.specs.Listed.{listed};

    ghost own = { λ ladder. ladder.side };

    ghost orders = { listed };

    ghost few = { Prim.search rules };

    fn new(side: Side) -> Ladder {
        Ladder {
            side,
            places: [Node::default(); CAPACITY],
            slots: places(),
            count: 0,
            levels: BoundedList::new(),
        }
    }

    fn clear(&mut self) {
        *self = Ladder::new(self.side);
    }

    fn count(&self) -> usize {
        self.count
    }

    fn look(&self, place: usize) -> Option<Resting> {
        let seat = self.locate(place)?;
        Some(self.order(seat.place))
    }

    fn find(&self, number: u32) -> Option<usize> {
        self.walk().before(number)
    }

    fn enter(&mut self, order: Resting) -> Result<(), Fault> {
        if self.count() >= CAPACITY {
            return Err(Fault::Full);
        }
        let rung = self.rung(order);
        if rung == 0 || self.levels.as_slice()[rung - 1].sign != Sign::from(order) {
            self.open(rung, order);
        } else {
            let seat = self.seat(rung - 1, &order);
            self.join(seat, order);
        }
        Ok(())
    }

    fn take_out(&mut self, place: usize) -> Option<Resting> {
        let seat = self.locate(place)?;
        let order = self.order(seat.place);
        self.unlink(seat);
        Some(order)
    }

    fn drop_first(&mut self) {
        if let Some(first) = self.first() {
            self.unlink(first);
        }
    }

    fn resize_first(&mut self, volume: u32) {
        if let Some(seat) = self.first() {
            self.resize(seat, volume);
        }
    }
}
