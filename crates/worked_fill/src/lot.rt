// A number of shares at a price, as one line shows it.
ghost use Rattle.std.specs.Prelude.{◌≡◌, Some};
ghost use Rattle.worked_fill.specs.Text.{lot_of, lot_text};

use book::Resting;
use euro::Euro;
use std::fmt;

#[derive(Clone, Copy, PartialEq, Eq, Debug)]
pub struct Lot {
    pub volume: u32,
    pub price: u64,
}

impl From<Resting> for Lot {
    ghost from_gives = { λ order lot. lot ≡ lot_of order };

    fn from(order: Resting) -> Lot {
        Lot {
            volume: order.volume,
            price: order.limit as u64,
        }
    }
}

impl fmt::Display for Lot {
    ghost output = { λ lot. Some (lot_text lot) };

    #[tactic(auto, using(crate::proofs::Lines::in_five_places))]
    fn fmt<W: fmt::Write>(&self, f: &mut fmt::Formatter<W>) -> fmt::Result {
        write!(f, "{:>5} at {}", self.volume, Euro(self.price))
    }
}
