// Where books differ from the plain one, or from one another.
use crate::draw::Phase;
use std::error::Error;
use std::fmt;

#[derive(Clone, Copy, PartialEq, Eq, Debug)]
pub enum Difference {
    // At a turn of a phase, from 0.
    AtTurn { phase: Phase, turn: u32, turns: u32 },
    WhenEmpty,
}

impl fmt::Display for Difference {
    ghost use Rattle.std.specs.Prelude.{Some};
    ghost use Rattle.booktrial.specs.Messages.{difference_text};

    ghost output = { λ d. Some (difference_text d) };

    fn fmt<W: fmt::Write>(&self, f: &mut fmt::Formatter<W>) -> fmt::Result {
        match self {
            Difference::AtTurn {
                phase: Phase::Orders,
                turn,
                ..
            } => write!(f, "the books differ at order {turn}"),
            Difference::AtTurn {
                phase: Phase::Calls,
                turn,
                turns,
            } => write!(f, "the books differ at call {turn} of {turns}"),
            Difference::WhenEmpty => write!(f, "the books differ when they are empty"),
        }
    }
}

impl Error for Difference {}
