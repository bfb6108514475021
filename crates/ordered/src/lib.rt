// Keeping records in order, settled once for any record that has an order, and finding one by its key.
#![tactic(auto)]

ghost use Rattle.std.specs.Prelude.{◌≡◌, ◌+◌, ◌-◌, ◌<◌, ◌≤◌, Bool, true, false, ◌++◌, length, take, drop, IfSome};
ghost use Rattle.std.specs.List.{insert as inserted_at, position_from, remove};
ghost use Rattle.ordered.specs.Order.{inserted, inserts, with_inserted, takes_out, with_taken_out, InsertionGoesBehindEquals, InsertionKeepsOrder};

mod bounded;

pub use bounded::{BoundedList, NoRoom};

// A record with an order among its kind. `By` chooses between the orders that a record has, as the side of a book does.
// (The library's `Ord` gives a type one order, and one that reads all that `==` does.)
// The laws make it one in which any two records compare: one is ahead of the other, or they are equal in it.
pub trait Ordered<By>: Copy {
    ghost ahead: { By → Self → Self → Bool };

    fn is_ahead(&self, other: &Self, by: By) -> bool
        ensures { result ≡ ahead by self.now other.now };

    ghost irreflexive: { (by : By) (x : Self) → ahead by x x ≡ false };

    ghost transitive: { (by : By) (x y z : Self) → ahead by x y ≡ true → ahead by y z ≡ true → ahead by x z ≡ true };

    ghost ranked: { (by : By) (x y z : Self) → ahead by x y ≡ false → ahead by y z ≡ false → ahead by x z ≡ false };
}

// A record with a key, as an order has its number.
pub trait Keyed<K>: Copy {
    ghost has: { K → Self → Bool };

    fn has_key(&self, key: K) -> bool
        ensures { result ≡ has key self.now };
}

// The first of a list that an item is ahead of.
fn first_behind<By: Copy, T: Ordered<By>>(kept: &[T], item: &T, by: By) -> Option<usize>
    ensures { result ≡ position_from (T.ahead by item.now) 0 kept.now }
{
    kept.iter().position(|other| item.is_ahead(other, by))
}

// Where an item goes in a list: before the first that it is ahead of.
fn place_of<By: Copy, T: Ordered<By>>(kept: &[T], item: &T, by: By) -> usize
    ensures within { result ≤ length kept.now }
    ensures parts { inserted (T.ahead by) item.now kept.now ≡ inserted_at kept.now result item.now }
{
    first_behind(kept, item, by).unwrap_or(kept.len())
}

// Moves the records from `place` on up by one slot, and writes the item there.
fn slide_in<T: Copy>(slots: &mut [T], used: usize, place: usize, item: T)
    requires place { place ≤ used }
    requires used { used < length slots.old }
    ensures slots { slots.new ≡ inserted_at (take used slots.old) place item ++ drop (used + 1) slots.old }
    ensures kept { take (used + 1) slots.new ≡ inserted_at (take used slots.old) place item }
{
    slots.copy_within(place..used, place + 1);
    slots[place] = item;
}

// Moves the records behind `place` down by one slot.
fn slide_out<T: Copy>(slots: &mut [T], used: usize, place: usize)
    requires place { place < used }
    requires used { used ≤ length slots.old }
    ensures slots { slots.new ≡ remove (take used slots.old) place ++ drop (used - 1) slots.old }
    ensures kept { take (used - 1) slots.new ≡ remove (take used slots.old) place }
{
    slots.copy_within(place + 1..used, place);
}

// What follows works on the first `used` slots of any slice, also of one that another lends: fixed memory need not be a
// `BoundedList`.

// Puts an item into its place among the first `used` slots, before the first that it is ahead of, and answers how many there
// are then. None, and no slot changed, where no slot is spare. (Inlined, so that what chooses the order, where a caller knows it,
// is not asked again at each record.)
#[inline(always)]
pub fn insert<By: Copy, T: Ordered<By>>(
    slots: &mut [T],
    used: usize,
    item: T,
    by: By,
) -> Option<usize>
    ensures answer { result ≡ inserts used (length slots.old) }
    ensures slots { slots.new ≡ with_inserted (T.ahead by) item used slots.old }
    ensures kept { IfSome result (λ n. take n slots.new ≡ inserted (T.ahead by) item (take used slots.old)) }
{
    if used >= slots.len() {
        return None;
    }
    let place = place_of(&slots[..used], &item, by);
    slide_in(slots, used, place, item);
    Some(used + 1)
}

// Under every lawful order, insertion keeps a list in order, and in such a list the item goes behind any that is equal.
fn insertion_keeps_order<By: Copy, T: Ordered<By>>(by: By)
    ensures order { InsertionKeepsOrder (T.ahead by) }
    ensures behind { InsertionGoesBehindEquals (T.ahead by) }
{}

// Takes the record at a place out of the first `used` slots, closes the gap, and answers how many there are then. None, and
// no slot changed, where there is no such place.
pub fn take_out<T: Copy>(slots: &mut [T], used: usize, place: usize) -> Option<usize>
    ensures answer { result ≡ takes_out used place (length slots.old) }
    ensures slots { slots.new ≡ with_taken_out used place slots.old }
    ensures kept { IfSome result (λ n. take n slots.new ≡ remove (take used slots.old) place) }
{
    if place >= used || used > slots.len() {
        return None;
    }
    slide_out(slots, used, place);
    Some(used - 1)
}

// The first of a list with a key.
fn first_with<K: Copy, T: Keyed<K>>(kept: &[T], key: K) -> Option<usize>
    ensures answer { result ≡ position_from (T.has key) 0 kept.now }
    ensures within { IfSome result (λ place. place < length kept.now) }
{
    kept.iter().position(|slot| slot.has_key(key))
}

// The first place of a key among the first `used` slots.
pub fn find<K: Copy, T: Keyed<K>>(slots: &[T], used: usize, key: K) -> Option<usize>
    ensures answer { result ≡ position_from (T.has key) 0 (take used slots.now) }
    ensures within { IfSome result (λ place. (place < used) × (place < length slots.now)) }
{
    let kept = &slots[..used.min(slots.len())];
    first_with(kept, key)
}
