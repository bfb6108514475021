// The links of a queue and the levels, changed in their arrays.
ghost use Rattle.std.specs.Prelude.{◌≡◌, ℕ, ◌+◌, ◌-◌, ◌<◌, ◌≤◌, length, slice_index, slice_set};
ghost use Rattle.ordered.specs.Bounded.{items};
ghost use Rattle.ladder_book.specs.Queues.{at, level_at, nexts, records};
ghost use Rattle.ladder_book.specs.Levels.{led, lessened, linked};

use crate::ladder::CAPACITY;
use crate::level::{Level, Node, Seat};
use book::Resting;
use ordered::BoundedList;
use std::array::from_fn;

// Every place, in order.
pub(crate) fn places() -> [u8; CAPACITY]
    ensures { (k : ℕ) → k < 128 → slice_index result k ≡ k }
{
    from_fn(|place| place as u8)
}

// Gives a place back to the free ones, those from `count` on; answers where they begin then.
pub(crate) fn give_back(slots: &mut [u8], count: usize, place: usize) -> usize
    requires place { place < 128 }
    requires some { 0 < count }
    requires few { count ≤ length slots.old }
    ensures count { result ≡ count - 1 }
    ensures slots { slots.new ≡ slice_set slots.old (count - 1) place }
{
    let free = count - 1;
    slots[free] = place as u8;
    free
}

// Writes an order at a place.
#[tactic(auto, using(crate::proofs::Nodes::records_set, crate::proofs::Nodes::nexts_same))]
pub(crate) fn put(places: &mut [Node], place: usize, order: Resting)
    requires { place < length places.old }
    ensures orders { records places.new ≡ slice_set (records places.old) place order }
    ensures next { nexts places.new ≡ nexts places.old }
{
    places[place].order = order;
}

// Sets the volume of the order at a place, and writes nothing else.
#[tactic(auto, using(crate::proofs::Nodes::nexts_same))]
pub(crate) fn set_volume(places: &mut [Node], place: usize, volume: u32)
    requires { place < length places.old }
    ensures orders { records places.new ≡ slice_set (records places.old) place (record (at (records places.old) place) { volume = volume }) }
    ensures next { nexts places.new ≡ nexts places.old }
{
    places[place].order.volume = volume;
}

// Leads the last in front of a seat, if there is one, on to a place.
#[tactic(auto, using(crate::proofs::Nodes::records_same, crate::proofs::Nodes::nexts_set))]
pub(crate) fn lead(places: &mut [Node], seat: Seat, place: usize)
    requires { 0 < seat.passed → seat.last < length places.old }
    ensures orders { records places.new ≡ records places.old }
    ensures next { nexts places.new ≡ led (nexts places.old) seat place }
{
    if seat.passed > 0 {
        places[seat.last].next = place;
    }
}

// Writes an order at a place, linked into a queue at a seat.
#[tactic(auto, using(crate::proofs::Nodes::records_set, crate::proofs::Nodes::nexts_set))]
pub(crate) fn link(places: &mut [Node], seat: Seat, place: usize, order: Resting)
    requires place { place < length places.old }
    requires last { 0 < seat.passed → seat.last < length places.old }
    ensures orders { records places.new ≡ slice_set (records places.old) place order }
    ensures next { nexts places.new ≡ linked (nexts places.old) seat place }
{
    places[place] = Node {
        order,
        next: seat.place,
    };
    lead(places, seat, place);
}

// Takes an order at a seat out of its level, and the level out with its last order.
pub(crate) fn lessen(levels: &mut BoundedList<Level, CAPACITY>, seat: Seat, after: usize)
    requires level { seat.level < length (items levels.old) }
    requires seat { seat.passed < (level_at (items levels.old) seat.level).size }
    ensures { items levels.new ≡ lessened (items levels.old) seat after }
{
    let level = levels.as_slice()[seat.level];
    if level.size == 1 {
        levels.remove(seat.level);
    } else {
        levels.set(seat.level, level.shrunk(seat, after));
    }
}
