// A fill as text: its figures, and its executions.
ghost use Rattle.std.specs.Prelude.{◌≡◌, Some};
ghost use Rattle.std.specs.Fmt.{WritesOnOk};
ghost use Rattle.book.specs.Sides.{reaches};
ghost use Rattle.book.specs.declared.side.Side.TheVariants.{Ask};
ghost use Rattle.worked_fill.specs.Text.{account_text, swept_text};

use crate::figures::Fill;
use crate::lot::Lot;
use book::{Orders, ReadBook, Resting, Side};
use euro::Euro;
use std::fmt;

// Of a fill, and the book that it is worked out against: what the executor buys first, each ask at its own limit, then what the
// customer buys from the executor, and what that gains.
#[derive(Clone, Copy)]
pub struct Account<'a, B> {
    pub book: &'a B,
    pub fill: Fill,
}

// Whether the executor buys an ask before it fills the customer at the price.
fn is_swept(ask: &Resting, price: u64) -> bool
    ensures { result ≡ reaches Ask ask.now.limit price }
{
    Side::Ask.reaches(ask.limit, price)
}

// The asks at the price or better, each at its own limit.
fn write_swept<W: fmt::Write, B: ReadBook>(
    f: &mut fmt::Formatter<W>,
    book: &B,
    price: u64,
) -> fmt::Result
    ensures { WritesOnOk W.write_str_gives f.old result (swept_text price (B.asks book.now)) f.new }
{
    for ask in Orders::of(book, Side::Ask) {
        if !is_swept(&ask, price) {
            break;
        }
        writeln!(f, "  {}", Lot::from(ask))?;
    }
    Ok(())
}

impl<B: ReadBook> fmt::Display for Account<'_, B> {
    ghost output = { λ account. Some (account_text account.fill (B.asks account.book.now)) };

    fn fmt<W: fmt::Write>(&self, f: &mut fmt::Formatter<W>) -> fmt::Result {
        let fill = self.fill;
        let bought = Lot {
            volume: fill.volume,
            price: fill.price,
        };
        writeln!(f, "{fill}")?;
        writeln!(
            f,
            "First the executor buys what is offered at that price or better:"
        )?;
        write_swept(f, self.book, fill.price)?;
        writeln!(f, "Then the customer buys from the executor:")?;
        writeln!(f, "  {bought}")?;
        write!(
            f,
            "Against the book the customer gains {} euro.",
            Euro(fill.gain)
        )
    }
}
