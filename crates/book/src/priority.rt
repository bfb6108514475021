// Which of two orders of one side comes first, and an order by its number.
ghost use Rattle.book.specs.Lists.{has_number};
ghost use Rattle.book.specs.Priority.{ahead};
ghost use Rattle.book.specs.Ranks;

use crate::resting::Resting;
use crate::side::Side;
use crate::sign::Sign;
use ordered::{Keyed, Ordered};

impl Ordered<Side> for Resting {
    ghost ahead = { ahead };

    ghost irreflexive = { Ranks.irreflexive };

    ghost transitive = { Ranks.transitive };

    ghost ranked = { Ranks.ranked };

    fn is_ahead(&self, other: &Resting, side: Side) -> bool {
        let (sign, others) = (Sign::from(*self), Sign::from(*other));
        if sign != others {
            return sign.is_ahead(&others, side);
        }
        self.number < other.number
    }
}

impl Keyed<u32> for Resting {
    ghost has = { has_number };

    fn has_key(&self, number: u32) -> bool {
        self.number == number
    }
}
