// The price of a customer's order.
ghost use Rattle.std.specs.Prelude.{◌≡◌, ◌≤◌, IfSome};
ghost use Rattle.book.specs.Listed.{listed};
ghost use Rattle.book.specs.Sides.{opposite};
ghost use Rattle.pricing.specs.Price.{priced, Nearest, BeatsTheCost};

use crate::averaging::walk;
use crate::quoting::quote_walked;
use crate::records::Quotation;
use book::{ReadBook, Side};

// What the whole order would cost over the orders opposite that count, and what an executor who is better than the rounded average by the
// relative limit asks or pays for it. None where the walk gives none.
pub fn price_order<B: ReadBook>(
    book: &B,
    customer: Side,
    volume: u32,
    relative: u32,
) -> Option<Quotation>
    ensures answer { result ≡ priced (opposite customer) volume relative (listed B.ReadBook (opposite customer) book.now) }
    ensures nearest { IfSome result (λ t. Nearest t.cost volume t.average) }
    ensures better { 1 ≤ relative → IfSome result (λ t. BeatsTheCost (opposite customer) t.cost volume t.price) }
{
    let side = customer.opposite();
    let walked = walk(book, side, volume)?;
    Some(quote_walked(side, walked, volume, relative))
}
