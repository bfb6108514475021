// What the providers refuse.
ghost use Rattle.std.specs.Prelude.{◌≡◌, Some};
ghost use Rattle.book.specs.Faults.{code_text};
ghost use Rattle.providers.specs.Faults.{coded};
ghost use Rattle.providers.specs.declared.fault.Fault.TheVariants.{Full, Range};

use book::Code;
use ordered::NoRoom;
use std::error::Error;
use std::fmt;

// The fields of a provider, each with its place in the order in which they are sent.
#[derive(Clone, Copy, PartialEq, Eq, Debug)]
pub enum Field {
    Member = 1,
    Agreements,
    Default,
}

#[derive(Clone, Copy, PartialEq, Eq, Debug)]
pub enum Fault {
    // A field out of its range.
    Range(Field),
    // A member that is new where no more can stand.
    Full,
}

// Each layer has its own fields and faults, so these conversions, a line or a table each, stand with each.
impl From<Field> for Fault {
    ghost from_gives = { λ field fault. fault ≡ Range field };

    fn from(field: Field) -> Fault {
        Self::Range(field)
    }
}

impl From<NoRoom> for Fault {
    ghost from_gives = { λ _ fault. fault ≡ Full };

    fn from(_: NoRoom) -> Fault {
        Self::Full
    }
}

impl From<Fault> for Code {
    ghost from_gives = { λ fault code. code ≡ coded fault };

    fn from(fault: Fault) -> Code {
        let (number, place) = match fault {
            Fault::Range(field) => (1, field as u8),
            Fault::Full => (12, 0),
        };
        Code {
            number,
            layer: 3,
            place,
        }
    }
}

impl fmt::Display for Fault {
    ghost output = { λ fault. Some (code_text (coded fault)) };

    fn fmt<W: fmt::Write>(&self, f: &mut fmt::Formatter<W>) -> fmt::Result {
        write!(f, "{}", Code::from(*self))
    }
}

impl Error for Fault {}
