// What the quotes refuse.
ghost use Rattle.std.specs.Prelude.{◌≡◌, Some};
ghost use Rattle.book.specs.Faults.{code_text};
ghost use Rattle.quotes.specs.Faults.{coded};
ghost use Rattle.quotes.specs.declared.fault.Fault.TheVariants.{Range};

use book::Code;
use std::error::Error;
use std::fmt;

// The fields of a quote, each with its place in the order in which they are sent.
#[derive(Clone, Copy, PartialEq, Eq, Debug)]
pub enum Field {
    Executor = 1,
    Side,
    Relative,
    Boundary,
    Size,
    Reserve,
}

#[derive(Clone, Copy, PartialEq, Eq, Debug)]
pub enum Fault {
    // A field out of range, the first such.
    Range(Field),
    // No side stands to be withdrawn.
    NoSide,
}

// Each layer has its own fields and faults, so these conversions, a line or a table each, stand with each.
impl From<Field> for Fault {
    ghost from_gives = { λ field fault. fault ≡ Range field };

    fn from(field: Field) -> Fault {
        Self::Range(field)
    }
}

impl From<Fault> for Code {
    ghost from_gives = { λ fault code. code ≡ coded fault };

    fn from(fault: Fault) -> Code {
        let (number, place) = match fault {
            Fault::Range(field) => (1, field as u8),
            Fault::NoSide => (11, 0),
        };
        Code {
            number,
            layer: 2,
            place,
        }
    }
}

impl fmt::Display for Fault {
    ghost output = { λ fault. Some (code_text (coded fault)) };

    fn fmt<W: fmt::Write>(&self, f: &mut fmt::Formatter<W>) -> fmt::Result {
        write!(f, "{}", Code::from(*self))
    }
}

impl Error for Fault {}
