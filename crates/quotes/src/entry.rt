// A quote as it is sent, and as it is entered.
ghost use Rattle.std.specs.Prelude.{◌≡◌};
ghost use Rattle.quotes.specs.Entries.{read_whose};
ghost use Rattle.quotes.specs.Soundness.{GivesQuote};

use crate::fault::{Fault, Field};
use crate::quote_side::QuoteSide;
use book::Side;
use fields::{nonzero, ranged};

// The fields that tell a side, whatever numbers they are. The ranges are those that are not refused.
#[derive(Clone, Copy, PartialEq, Eq, Debug)]
pub struct WhoseFields {
    // 1 to 8.
    pub executor: u64,
    // 0 for a bid quote, 1 for an ask quote.
    pub side: u64,
}

// The fields of a quote, likewise.
#[derive(Clone, Copy, PartialEq, Eq, Debug)]
pub struct QuoteFields {
    pub whose: WhoseFields,
    // 1 to 1,000,000.
    pub relative: u64,
    // 0 for none, to 100,000,000.
    pub boundary: u64,
    // 1 to 1,000,000.
    pub size: u64,
    // 0 to 1,000,000,000.
    pub reserve: u64,
}

// Which quote side: an executor's bid or ask quote.
#[derive(Clone, Copy, PartialEq, Eq, Debug)]
pub struct Whose {
    pub executor: u8,
    pub side: Side,
}

// A quote with all its fields in range.
#[derive(Clone, Copy, PartialEq, Eq, Debug)]
pub struct Quote {
    pub whose: Whose,
    pub terms: QuoteSide,
}

impl TryFrom<WhoseFields> for Whose {
    type Error = Fault;

    ghost try_from_gives = { λ fields r. r ≡ read_whose fields };

    fn try_from(fields: WhoseFields) -> Result<Whose, Fault> {
        Ok(Whose {
            executor: ranged(fields.executor, 1..=8, Field::Executor)? as u8,
            side: Side::try_from(fields.side).map_err(|_| Field::Side)?,
        })
    }
}

// The quote, or the first field at fault.
impl TryFrom<QuoteFields> for Quote {
    type Error = Fault;

    ghost try_from_gives = { GivesQuote };

    fn try_from(fields: QuoteFields) -> Result<Quote, Fault> {
        let whose = Whose::try_from(fields.whose)?;
        let relative = ranged(fields.relative, 1..=1_000_000, Field::Relative)?;
        let boundary = ranged(fields.boundary, 0..=100_000_000, Field::Boundary)?;
        let size = ranged(fields.size, 1..=1_000_000, Field::Size)?;
        let reserve = ranged(fields.reserve, 0..=1_000_000_000, Field::Reserve)?;
        // A new side displays its size.
        let terms = QuoteSide {
            relative,
            boundary: nonzero(boundary),
            size,
            displayed: size,
            reserve,
        };
        Ok(Quote { whose, terms })
    }
}
