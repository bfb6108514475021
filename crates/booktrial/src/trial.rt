// Books beside the plain one: the same calls to all, and whether all answer and stand alike.
ghost use Rattle.std.specs.Prelude.{◌≡◌, ◌+◌, ◌%◌, ◌^◌, ◌<◌, ◌↔◌, if◌then◌else◌, ℕ, Ok, Some, IsTrue, IsSome, IfErr, IfSome, OnErr, OnOk};
ghost use Rattle.std.specs.List.{slice_get};
ghost use Rattle.booktrial.specs.Alike.{Alike, AlikeOn};
ghost use Rattle.booktrial.specs.Arrivals.{place_of};
ghost use Rattle.booktrial.specs.Calls.{after, answered, no_orders, side_of};
ghost use Rattle.booktrial.specs.Counts.{no_calls, take_refused, tallied};
ghost use Rattle.booktrial.specs.Drawn.{after_steps, MayDraw};
ghost use Rattle.booktrial.specs.Kept.{Differ, InPriority, MakesCalls, made};
ghost use Rattle.booktrial.specs.Plain.{after_plainly, answered_plainly};
ghost use Rattle.booktrial.specs.PlainLists.{plain_lists};
ghost use Rattle.booktrial.specs.Standing.{standing};
ghost use Rattle.booktrial.specs.Turns.{Played};
ghost use Rattle.booktrial.specs.Weight.{book_weight, side_weight, weight_of};
ghost use Rattle.booktrial.specs.declared.difference.Difference.TheVariants.{AtTurn};
ghost use Rattle.booktrial.specs.declared.draw.TheConstants.{START};

use crate::call::Call;
use crate::difference::Difference;
use crate::draw::{Draw, Phase};
use crate::plain::Plain;
use crate::rivals::Rivals;
use crate::tally::Tally;
use crate::weight::weight_of;
use book::{Resting, Side};

#[derive(Drop)]
pub struct Trial<R: Rivals> {
    pub books: R,
    pub tally: Tally,
    // What the orders that were compared weigh together.
    pub weight: u64,
    plain: Plain,
    draw: Draw,
}

impl<R: Rivals> Trial<R> {
    pub fn new(books: R) -> Trial<R>
        ensures books { result.books ≡ books }
        ensures tally { result.tally ≡ no_calls }
        ensures weight { result.weight ≡ 0 }
        ensures plain { plain_lists result.plain ≡ no_orders }
        ensures state { result.draw.state ≡ START }
    {
        Trial {
            books,
            tally: Tally::default(),
            weight: 0,
            plain: Plain::new(),
            draw: Draw::new(),
        }
    }

    // The weight of the order that came as number `came`, where all books show it at its place.
    fn weight_at(&self, side: Side, came: usize, order: &Resting) -> Option<u64>
        ensures shown { IsSome result ↔ (slice_get (side_of side (R.lists self.now.books)) (place_of side (side_of side (plain_lists self.now.plain)) came order.now) ≡ Some order.now) }
        ensures weight { IfSome result (λ w. w ≡ weight_of (place_of side (side_of side (plain_lists self.now.plain)) came order.now) order.now) }
    {
        let place = self.plain.place_of(side, came, order);
        if self.books.all_show(side, place, Some(*order)) {
            Some(weight_of(place, order))
        } else {
            None
        }
    }

    // The weight of a side's orders, where the side is the same in all books.
    fn weight_on(&self, side: Side) -> Option<u64>
        ensures alike { IsSome result ↔ AlikeOn side (side_of side (plain_lists self.now.plain)) (side_of side (R.lists self.now.books)) }
        ensures weight { IfSome result (λ w. w ≡ side_weight side (side_of side (plain_lists self.now.plain))) }
    {
        let orders = self.plain.orders(side);
        if !self.books.all_count(side, orders.len())
            || !self.books.all_show(side, orders.len(), None)
        {
            return None;
        }
        // A `for`, since an order that no book shows ends it.
        let mut weight: u64 = 0;
        for (came, order) in orders.iter().enumerate() {
            weight = weight.wrapping_add(self.weight_at(side, came, order)?);
        }
        Some(weight)
    }

    fn weight(&self) -> Option<u64>
        ensures alike { IsSome result ↔ Alike (plain_lists self.now.plain) (R.lists self.now.books) }
        ensures weight { IfSome result (λ w. w ≡ book_weight (plain_lists self.now.plain)) }
    {
        let bids = self.weight_on(Side::Bid)?;
        let asks = self.weight_on(Side::Ask)?;
        Some(bids.wrapping_add(asks))
    }

    // Whether both sides of all books are the same; then what was compared is weighed.
    fn alike(&mut self) -> bool
        ensures alike { IsTrue result ↔ Alike (plain_lists self.old.plain) (R.lists self.old.books) }
        ensures weight { self.new ≡ record self.old { weight = if result then (self.old.weight + book_weight (plain_lists self.old.plain)) % 2 ^ 64 else self.old.weight } }
        ensures nothing { book_weight (plain_lists self.old.plain) ≡ 0 → self.new.weight ≡ self.old.weight }
    {
        let Some(weight) = self.weight() else {
            return false;
        };
        self.weight = self.weight.wrapping_add(weight);
        true
    }

    // (This and the tests beside it answer whether, and no more: what a difference is, `play` and `empty` tell.)
    // Makes a call of all books. Whether they answer alike, and stand alike after it.
    fn make(&mut self, call: Call) -> bool
        ensures alike { IsTrue result ↔ (answered_plainly call (plain_lists self.old.plain) ≡ answered call (R.lists self.old.books)) × Alike (plain_lists self.new.plain) (R.lists self.new.books) }
        ensures books { R.lists self.new.books ≡ after call (R.lists self.old.books) }
        ensures plain { plain_lists self.new.plain ≡ after_plainly call (plain_lists self.old.plain) }
        ensures tally { self.new.tally ≡ tallied call (answered call (R.lists self.old.books)) self.old.tally }
        ensures weight { self.new.weight ≡ (if result then (self.old.weight + book_weight (plain_lists self.new.plain)) % 2 ^ 64 else self.old.weight) }
        ensures nothing { book_weight (plain_lists self.new.plain) ≡ 0 → self.new.weight ≡ self.old.weight }
        ensures state { self.new.draw.state ≡ self.old.draw.state }
    {
        let Some(told) = self.books.call(call) else {
            return false;
        };
        self.tally.count(call, told);
        self.plain.call(call) == told && self.alike()
    }

    // Makes so many drawn calls, or those up to one that shows a difference.
    pub fn play(&mut self, phase: Phase, turns: u32) -> Result<(), Difference>
        ensures calls { MakesCalls (MayDraw phase) (made turns result) (R.lists self.old.books) (R.lists self.new.books) self.old.tally self.new.tally }
        ensures order { InPriority (R.lists self.old.books) → InPriority (R.lists self.new.books) }
        ensures alike { OnOk result (0 < turns → Alike (plain_lists self.new.plain) (R.lists self.new.books)) }
        ensures differ { OnErr result (Differ (plain_lists self.new.plain) (R.lists self.new.books)) }
        ensures within { IfErr result (λ e. (turn : ℕ) × (turn < turns) × (e ≡ AtTurn phase turn turns)) }
        ensures stands { Played phase turns result (standing R.Rivals self.old) (standing R.Rivals self.new) }
    {
        for turn in 0..turns {
            let call = self.draw.call(phase, &self.plain);
            if !self.make(call) {
                return Err(Difference::AtTurn { phase, turn, turns });
            }
        }
        Ok(())
    }

    // Tries to take from a side of books that are empty.
    fn take_nothing(&mut self, side: Side) -> bool
        requires books { R.lists self.old.books ≡ no_orders }
        requires plain { plain_lists self.old.plain ≡ no_orders }
        ensures alike { IsTrue result }
        ensures books { R.lists self.new.books ≡ no_orders }
        ensures plain { plain_lists self.new.plain ≡ no_orders }
        ensures tally { self.new.tally ≡ take_refused self.old.tally }
        ensures weight { self.new.weight ≡ self.old.weight }
        ensures state { self.new.draw.state ≡ after_steps 3 self.old.draw.state }
    {
        let call = self.draw.take(side, &self.plain);
        self.make(call)
    }

    // Empties all books, and then tries to take from each side.
    pub fn empty(&mut self) -> Result<(), Difference>
        ensures alike { result ≡ Ok tt }
        ensures books { R.lists self.new.books ≡ no_orders }
        ensures tally { self.new.tally ≡ take_refused (take_refused self.old.tally) }
        ensures plain { plain_lists self.new.plain ≡ no_orders }
        ensures weight { self.new.weight ≡ self.old.weight }
        ensures state { self.new.draw.state ≡ after_steps 6 self.old.draw.state }
    {
        self.books.empty();
        self.plain.empty();
        if self.alike() && self.take_nothing(Side::Bid) && self.take_nothing(Side::Ask) {
            Ok(())
        } else {
            Err(Difference::WhenEmpty)
        }
    }
}
