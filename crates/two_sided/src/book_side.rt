// One side of a book, by the list that it stands for.
ghost use Rattle.std.specs.Prelude.{◌≡◌, ◌≤◌, List, [], length};
ghost use Rattle.std.specs.List.{remove, slice_get};
ghost use Rattle.book.specs.Lists.{capacity, enters, entered, placed, takes, taken};
ghost use Rattle.book.specs.declared.resting.Resting.{Resting};
ghost use Rattle.book.specs.declared.side.Side.{Side};
ghost use Rattle.two_sided.specs.Resized.{resized};

use book::{Fault, Resting, Side};

pub trait BookSide {
    // Which side it is. That it stays so is said of each call: with the side in the type a book would be a type of two parameters,
    // and each condition of a ladder a fact over a bound.
    ghost own: { Self → Side };

    ghost orders: { Self → List Resting };

    // An empty side.
    fn new(side: Side) -> Self
        ensures own { own result ≡ side }
        ensures orders { orders result ≡ [] };

    fn clear(&mut self)
        ensures own { own self.new ≡ own self.old }
        ensures orders { orders self.new ≡ [] };

    fn count(&self) -> usize
        ensures { result ≡ length (orders self.now) };

    // The order at a place, from 0; none past the end.
    fn look(&self, place: usize) -> Option<Resting>
        ensures { result ≡ slice_get (orders self.now) place };

    // The first place of a number.
    fn find(&self, number: u32) -> Option<usize>
        ensures { result ≡ placed number 0 (orders self.now) };

    // Puts an order into its place by priority.
    fn enter(&mut self, order: Resting) -> Result<(), Fault>
        ensures own { own self.new ≡ own self.old }
        ensures answer { result ≡ enters (orders self.old) }
        ensures orders { orders self.new ≡ entered (own self.old) order (orders self.old) };

    // Takes the order at a place out, if there is one, and answers it.
    fn take_out(&mut self, place: usize) -> Option<Resting>
        ensures own { own self.new ≡ own self.old }
        ensures answer { result ≡ slice_get (orders self.old) place }
        ensures orders { orders self.new ≡ remove (orders self.old) place };

    // Takes the first order out, if there is one. (As `take_out` at place 0, but it answers nothing, and need not look for a place.)
    fn drop_first(&mut self)
        ensures own { own self.new ≡ own self.old }
        ensures orders { orders self.new ≡ remove (orders self.old) 0 };

    // Sets the first order's volume, if there is one.
    fn resize_first(&mut self, volume: u32)
        ensures own { own self.new ≡ own self.old }
        ensures orders { orders self.new ≡ resized volume (orders self.old) };

    // Takes a volume from the first order, which leaves when none is left of it.
    final fn take(&mut self, volume: u32) -> Result<(), Fault>
        ensures own { own self.new ≡ own self.old }
        ensures answer { result ≡ takes volume (orders self.old) }
        ensures orders { orders self.new ≡ taken volume (orders self.old) }
    {
        let first = self.look(0).ok_or(Fault::Range)?;
        if volume == 0 || volume > first.volume {
            return Err(Fault::Range);
        }
        let rest = first.volume - volume;
        if rest == 0 {
            self.drop_first();
        } else {
            self.resize_first(rest);
        }
        Ok(())
    }

    ghost few: { (s : Self) → length (orders s) ≤ capacity };
}
