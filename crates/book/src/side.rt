// The two sides of a book. A buying order's own side is the bids, a selling one's the asks.
ghost use Rattle.std.specs.Prelude.{◌≡◌, ◌++◌, Some, codes, decimal};
ghost use Rattle.book.specs.Sides.{better, opposite, reaches, told};

use std::error::Error;
use std::fmt;

#[derive(Clone, Copy, PartialEq, Eq, Debug)]
pub enum Side {
    Bid,
    Ask,
}

// A number that tells no side.
#[derive(Clone, Copy, PartialEq, Eq, Debug)]
pub struct UnknownSide(pub u64);

impl TryFrom<u64> for Side {
    type Error = UnknownSide;

    ghost try_from_gives = { λ number r. r ≡ told number };

    // The side that a field tells: 0 the bids, 1 the asks.
    fn try_from(number: u64) -> Result<Side, UnknownSide> {
        match number {
            0 => Ok(Side::Bid),
            1 => Ok(Side::Ask),
            _ => Err(UnknownSide(number)),
        }
    }
}

impl fmt::Display for UnknownSide {
    ghost output = { λ unknown. Some (decimal unknown.0 ++ codes " tells no side") };

    fn fmt<W: fmt::Write>(&self, f: &mut fmt::Formatter<W>) -> fmt::Result {
        write!(f, "{} tells no side", self.0)
    }
}

impl Error for UnknownSide {}

impl Side {
    pub fn opposite(self) -> Side
        ensures { result ≡ opposite self }
    {
        match self {
            Side::Bid => Side::Ask,
            Side::Ask => Side::Bid,
        }
    }

    // Whether a limit is strictly better on this side than another.
    pub fn better(self, limit: u32, other: u32) -> bool
        ensures { result ≡ better self limit other }
    {
        match self {
            Side::Bid => limit > other,
            Side::Ask => limit < other,
        }
    }

    // Whether an order of this side with that limit stands at the price or better, so that it could trade there.
    pub fn reaches(self, limit: u32, price: u64) -> bool
        ensures { result ≡ reaches self limit price }
    {
        let limit = limit as u64;
        match self {
            Side::Bid => limit >= price,
            Side::Ask => limit <= price,
        }
    }
}
