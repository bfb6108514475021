// What of an order comes before its number in priority: its limit and its mark.
ghost use Rattle.std.specs.Prelude.{◌≡◌};
ghost use Rattle.book.specs.Priority.{ahead};
ghost use Rattle.book.specs.Ranks;
ghost use Rattle.book.specs.Signs.{like, sign_of};

use crate::resting::Resting;
use crate::side::Side;
use ordered::Ordered;

#[derive(Clone, Copy, PartialEq, Eq, Debug, Default)]
pub struct Sign {
    pub limit: u32,
    pub visible: bool,
}

impl From<Resting> for Sign {
    ghost from_gives = { λ order sign. sign ≡ sign_of order };

    fn from(order: Resting) -> Sign {
        Sign {
            limit: order.limit,
            visible: order.visible,
        }
    }
}

// Priority by limit and mark alone.
impl Ordered<Side> for Sign {
    ghost ahead = { λ side a b. ahead side (like a) (like b) };

    ghost irreflexive = { λ side a. Ranks.irreflexive side (like a) };

    ghost transitive = { λ side a b c. Ranks.transitive side (like a) (like b) (like c) };

    ghost ranked = { λ side a b c. Ranks.ranked side (like a) (like b) (like c) };

    fn is_ahead(&self, other: &Sign, side: Side) -> bool {
        if self.limit != other.limit {
            return side.better(self.limit, other.limit);
        }
        self.visible && !other.visible
    }
}
