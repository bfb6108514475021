// The books of a trial, which get the same calls and are to answer them alike.
ghost use Rattle.std.specs.Prelude.{◌≡◌, ◌↔◌, IsTrue, Some, Option, length};
ghost use Rattle.std.specs.List.{slice_get};
ghost use Rattle.book.specs.declared.resting.Resting.{Resting};
ghost use Rattle.booktrial.specs.Calls.{Lists, after, answered, lists_of, no_orders, side_of};

use crate::call::{Answer, Call, called};
use book::{Book, Fault, Resting, Side};

pub trait Rivals {
    // The lists that each of the books stands for.
    ghost lists: { Self → Lists };

    fn empty(&mut self)
        ensures { lists self.new ≡ no_orders };

    // What all of them answer to the call. (None would say that answers differ, which books that meet their contracts never do.)
    fn call(&mut self, call: Call) -> Option<Result<Answer, Fault>>
        ensures answer { result ≡ Some (answered call (lists self.old)) }
        ensures lists { lists self.new ≡ after call (lists self.old) };

    // Whether all of them count so many orders on a side.
    fn all_count(&self, side: Side, orders: usize) -> bool
        ensures { IsTrue result ↔ (length (side_of side (lists self.now)) ≡ orders) };

    // Whether all of them show the same at a place of a side: an order, or none.
    fn all_show(&self, side: Side, place: usize, order: Option<Resting>) -> bool
        ensures { IsTrue result ↔ (slice_get (side_of side (lists self.now)) place ≡ order) };
}

// Two books that stand for the same lists.
#[derive(Drop)]
pub struct Both<A: Book, B: Book> {
    pub first: A,
    pub second: B,
    ghost bids_alike: { A.ReadBook.bids first ≡ B.ReadBook.bids second },
    ghost asks_alike: { A.ReadBook.asks first ≡ B.ReadBook.asks second },
}

impl<A: Book, B: Book> Both<A, B> {
    // Both of them, emptied, so that they begin alike.
    pub fn new(mut first: A, mut second: B) -> Both<A, B>
        ensures first { lists_of A.ReadBook result.first ≡ no_orders }
        ensures second { lists_of B.ReadBook result.second ≡ no_orders }
    {
        first.empty();
        second.empty();
        Both { first, second }
    }
}

impl<B: Book> Rivals for B {
    ghost lists = { λ r. lists_of B.ReadBook r };

    fn empty(&mut self) {
        Book::empty(self);
    }

    fn call(&mut self, call: Call) -> Option<Result<Answer, Fault>> {
        Some(called(self, call))
    }

    fn all_count(&self, side: Side, orders: usize) -> bool {
        self.count(side) == orders
    }

    fn all_show(&self, side: Side, place: usize, order: Option<Resting>) -> bool {
        self.look(side, place) == order
    }
}

impl<A: Book, B: Book> Rivals for Both<A, B> {
    ghost lists = { λ r. lists_of A.ReadBook r.first };

    fn empty(&mut self) {
        self.first.empty();
        self.second.empty();
    }

    fn call(&mut self, call: Call) -> Option<Result<Answer, Fault>> {
        let told = called(&mut self.first, call);
        if called(&mut self.second, call) == told {
            Some(told)
        } else {
            None
        }
    }

    fn all_count(&self, side: Side, orders: usize) -> bool {
        self.first.count(side) == orders && self.second.count(side) == orders
    }

    fn all_show(&self, side: Side, place: usize, order: Option<Resting>) -> bool {
        self.first.look(side, place) == order && self.second.look(side, place) == order
    }
}
