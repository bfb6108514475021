// A level of a ladder, what stands at its places, and a seat in its queue.
ghost use Rattle.std.specs.Prelude.{◌≡◌, ◌<◌};
ghost use Rattle.ladder_book.specs.Levels.{alone, grown, shrunk};

use book::{Resting, Sign};

// The queue of the orders of one limit and one mark: the places of the first and of the last, and how many they are.
#[derive(Clone, Copy, Default)]
pub struct Level {
    // What its orders have in common.
    pub sign: Sign,
    pub head: usize,
    pub tail: usize,
    pub size: usize,
}

// What stands at a place: an order, and the place of the next in its level, where one follows.
#[derive(Clone, Copy, Default)]
pub struct Node {
    pub order: Resting,
    pub next: usize,
}

// A seat in a level's queue: how many orders stand in front of it, the place of the last of these, and the place of the order
// there, if it is not the back. That it is a seat of a ladder is a fact of both, so it stands in contracts: a type that had it
// would hold the ladder, and could not be used to change it. So it is with a level's number, and the side.
#[derive(Clone, Copy)]
pub struct Seat {
    pub level: usize,
    pub passed: usize,
    pub last: usize,
    pub place: usize,
}

impl Level {
    // The level of one order, at a place.
    pub fn alone(order: Resting, place: usize) -> Level
        ensures { result ≡ alone order place }
    {
        Level {
            sign: Sign::from(order),
            head: place,
            tail: place,
            size: 1,
        }
    }

    // The level with a place linked in at a seat.
    pub fn grown(self, seat: Seat, place: usize) -> Level
        requires { self.size < 128 }
        ensures { result ≡ grown self seat place }
    {
        Level {
            head: if seat.passed == 0 { place } else { self.head },
            tail: if seat.passed == self.size {
                place
            } else {
                self.tail
            },
            size: self.size + 1,
            ..self
        }
    }

    // The level without the place at a seat, which `after` follows.
    pub fn shrunk(self, seat: Seat, after: usize) -> Level
        requires { seat.passed < self.size }
        ensures { result ≡ shrunk self seat after }
    {
        Level {
            head: if seat.passed == 0 { after } else { self.head },
            tail: if seat.passed + 1 == self.size {
                seat.last
            } else {
                self.tail
            },
            size: self.size - 1,
            ..self
        }
    }
}
