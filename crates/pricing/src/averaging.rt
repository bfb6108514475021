// The averaging walk.
ghost use Rattle.std.specs.Prelude.{◌≡◌, ◌+◌, ◌*◌, ◌^◌, ◌<◌, ◌≤◌, IfSome};
ghost use Rattle.book.specs.Listed.{listed};
ghost use Rattle.pricing.specs.Counting.{counting};
ghost use Rattle.pricing.specs.Walk.{walked, by_share, shares};

use crate::counting::left_out;
use crate::records::Walked;
use book::{Orders, ReadBook, Side};

// The largest volume of an order.
const LARGEST: u32 = 1_000_000;

// A cost with so many shares more at a limit.
fn add_shares(cost: u64, shares: u64, limit: u32) -> u64
    requires { cost + shares * limit < 2 ^ 64 }
    ensures { result ≡ cost + shares * limit }
{
    cost + shares * limit as u64
}

// What `volume` shares of a side cost, over the orders that count, in their order. None where the volume is no order's,
// no order is visible, or the orders that count have fewer shares.
pub fn walk<B: ReadBook>(book: &B, side: Side, volume: u32) -> Option<Walked>
    ensures answer { result ≡ walked volume (listed B.ReadBook side book.now) }
    ensures meaning { result ≡ by_share volume (shares (counting (listed B.ReadBook side book.now))) }
    ensures bound { IfSome result (λ w. w.cost ≤ volume * 4294967295) }
{
    if volume == 0 || volume > LARGEST {
        return None;
    }
    let mut wanted = volume as u64;
    let mut cost = 0;
    for order in Orders::from_place(book, side, left_out(book, side)) {
        let shares = wanted.min(order.volume as u64);
        cost = add_shares(cost, shares, order.limit);
        if shares == wanted {
            return Some(Walked {
                cost,
                last: order.limit,
            });
        }
        wanted -= shares;
    }
    None
}
