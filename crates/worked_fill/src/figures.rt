// What a customer's order comes to, filled by an executor's quote.
ghost use Rattle.std.specs.Prelude.{◌≡◌, ◌≢◌, ◌*◌, ◌≤◌, Err, IfOk, Some, codes};
ghost use Rattle.worked_fill.specs.Figures.{filled};

use book::{ReadBook, Side};
use euro::{Euro, gain, ten_thousandths};
use pricing::price_order;
use std::error::Error;
use std::fmt;

// A buying customer's order of a volume, filled by an executor who is better than the average by the relative limit. All of
// it in thousandths of a euro, but for the average to a digit more.
#[derive(Clone, Copy, PartialEq, Eq, Debug)]
pub struct Fill {
    pub volume: u32,
    pub relative: u32,
    // What the order would cost in the book, and the limit of the last order that it reaches there.
    pub cost: u64,
    pub last: u32,
    // The average in ten-thousandths, the rest dropped, and rounded to thousandths.
    pub exact: u64,
    pub average: u32,
    // What the customer pays a share, and saves on all of them.
    pub price: u64,
    pub gain: u64,
}

// Why there is no fill.
#[derive(Clone, Copy, PartialEq, Eq, Debug)]
pub enum NoFill {
    // The book has too few shares.
    NoAverage,
    // The price would be below a thousandth.
    NoPrice,
    // The book is cheaper.
    NoGain,
}

impl fmt::Display for NoFill {
    ghost use Rattle.worked_fill.specs.Text.{reason};

    ghost output = { λ why. Some (reason why) };

    fn fmt<W: fmt::Write>(&self, f: &mut fmt::Formatter<W>) -> fmt::Result {
        f.write_str(match self {
            NoFill::NoAverage => "the book has no average for the order",
            NoFill::NoPrice => "the price would be below 0.001",
            NoFill::NoGain => "the price is worse than the book",
        })
    }
}

impl Error for NoFill {}

impl Fill {
    pub fn of<B: ReadBook>(book: &B, volume: u32, relative: u32) -> Result<Fill, NoFill>
        ensures answer { result ≡ filled volume relative (B.asks book.now) }
        ensures gain { 1 ≤ relative → IfOk result (λ f. volume ≤ 2 * f.gain) }
        ensures never_worse { 1 ≤ relative → result ≢ Err NoFill.NoGain }
    {
        let quotation = price_order(book, Side::Bid, volume, relative).ok_or(NoFill::NoAverage)?;
        let price = quotation.price.ok_or(NoFill::NoPrice)?;
        // There are shares, and no cost comes near 64 bits: the proof shows that it is there.
        let exact = ten_thousandths(quotation.cost, volume).unwrap();
        let gain = gain(quotation.cost, volume, price).ok_or(NoFill::NoGain)?;
        Ok(Fill {
            volume,
            relative,
            cost: quotation.cost,
            last: quotation.last,
            exact,
            average: quotation.average,
            price,
            gain,
        })
    }
}

impl fmt::Display for Fill {
    ghost use Rattle.worked_fill.specs.Text.{fill_text};

    ghost output = { λ fill. Some (fill_text fill) };

    fn fmt<W: fmt::Write>(&self, f: &mut fmt::Formatter<W>) -> fmt::Result {
        let average = Euro(self.average as u64);
        writeln!(
            f,
            "In the book they would cost {}, the last of them at {}.",
            Euro(self.cost),
            Euro(self.last as u64)
        )?;
        writeln!(
            f,
            "On average that is {}{}, rounded {average}.",
            Euro(self.exact / 10),
            self.exact % 10
        )?;
        write!(
            f,
            "The price: {average} - {} = {}.",
            Euro(self.relative as u64),
            Euro(self.price)
        )
    }
}
