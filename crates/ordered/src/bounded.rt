// A list in fixed memory.
ghost use Rattle.std.specs.Prelude.{◌≡◌, ◌≤◌, ⊤, length};

use crate::{Keyed, Ordered, find, insert, slide_in, take_out};
use std::alloc::AllocError;

// A list that holds all it can.
#[derive(Clone, Copy, PartialEq, Eq, Debug)]
pub struct NoRoom;

// At most `CAPACITY` records in fixed memory: the first `used` of the slots. What lies behind them means nothing. (The kit's
// `ArrayVec` is not `Copy`, and what is kept in such lists is. With an `impl Model` that forgets the rest it could not be.)
pub struct BoundedList<T, const CAPACITY: usize> {
    slots: [T; CAPACITY],
    used: usize,
    ghost long: { length slots ≡ CAPACITY },
    ghost few: { used ≤ CAPACITY },
}

impl<T: Copy, const CAPACITY: usize> Copy for BoundedList<T, CAPACITY> {}

// By hand, since no derive goes with a ghost field and a type parameter.
impl<T: Copy, const CAPACITY: usize> Clone for BoundedList<T, CAPACITY> {
    ghost is_clone = { λ old new. new ≡ old };

    ghost is_infallible = { λ _. ⊤ };

    fn clone(&self) -> Result<BoundedList<T, CAPACITY>, AllocError> {
        Ok(*self)
    }
}

impl<T: Copy, const CAPACITY: usize> BoundedList<T, CAPACITY> {
    ghost use Rattle.std.specs.Prelude.{[], OnErr, slice_set, if◌then◌else◌};
    ghost use Rattle.std.specs.List.{insert as inserted_at, position_from, remove, slice_get};
    ghost use Rattle.ordered.specs.Bounded.{has_room, insertion, items};
    ghost use Rattle.ordered.specs.Order.{inserted};

    pub fn new() -> BoundedList<T, CAPACITY>
    where
        T: Default,
        ensures { items result ≡ [] }
    {
        BoundedList {
            slots: [T::default(); CAPACITY],
            used: 0,
        }
    }

    pub fn clear(&mut self)
        ensures { items self.new ≡ [] }
    {
        self.used = 0;
    }

    pub fn len(&self) -> usize
        ensures { result ≡ length (items self.now) }
    {
        self.as_slice().len()
    }

    pub fn as_slice(&self) -> &[T]
        ensures { result.now ≡ items self.now }
    {
        &self.slots[..self.used]
    }

    // The record at a place, none past the end.
    pub fn get(&self, place: usize) -> Option<T>
        ensures { result ≡ slice_get (items self.now) place }
    {
        self.as_slice().get(place).copied()
    }

    // Writes a record over the one at a place, if there is one.
    #[tactic(auto, using(crate::proofs::Slides::written))]
    pub fn set(&mut self, place: usize, item: T)
        ensures { items self.new ≡ slice_set (items self.old) place item }
    {
        if place < self.used {
            self.slots[place] = item;
        }
    }

    // Puts a record into its place by order, before the first that it is ahead of. (Inlined, as `insert` of slices is.)
    #[inline(always)]
    pub fn insert<By: Copy>(&mut self, item: T, by: By) -> Result<(), NoRoom>
    where
        T: Ordered<By>,
        ensures answer { result ≡ insertion CAPACITY (items self.old) }
        ensures after { items self.new ≡ (if has_room CAPACITY (items self.old) then inserted (T.ahead by) item (items self.old) else items self.old) }
        ensures refused { OnErr result (self.new ≡ self.old) }
    {
        self.used = insert(&mut self.slots, self.used, item, by).ok_or(NoRoom)?;
        Ok(())
    }

    // Puts a record at a place, or at the end where the place is past it.
    pub fn insert_at(&mut self, place: usize, item: T) -> Result<(), NoRoom>
        ensures answer { result ≡ insertion CAPACITY (items self.old) }
        ensures after { items self.new ≡ (if has_room CAPACITY (items self.old) then inserted_at (items self.old) place item else items self.old) }
        ensures refused { OnErr result (self.new ≡ self.old) }
    {
        if self.used >= CAPACITY {
            return Err(NoRoom);
        }
        slide_in(&mut self.slots, self.used, place.min(self.used), item);
        self.used += 1;
        Ok(())
    }

    // Takes the record at a place out, if there is one, and answers it.
    pub fn remove(&mut self, place: usize) -> Option<T>
        ensures answer { result ≡ slice_get (items self.old) place }
        ensures after { items self.new ≡ remove (items self.old) place }
    {
        let item = self.get(place);
        if let Some(used) = take_out(&mut self.slots, self.used, place) {
            self.used = used;
        }
        item
    }

    // The first place of a key.
    pub fn find<K: Copy>(&self, key: K) -> Option<usize>
    where
        T: Keyed<K>,
        ensures { result ≡ position_from (T.has key) 0 (items self.now) }
    {
        find(&self.slots, self.used, key)
    }
}
