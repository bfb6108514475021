// What a book refuses.
ghost use Rattle.std.specs.Prelude.{◌≡◌, Some};
ghost use Rattle.book.specs.Faults.{code_text, coded};
ghost use Rattle.book.specs.declared.fault.Fault.TheVariants.{Full};

use ordered::NoRoom;
use std::error::Error;
use std::fmt;

#[derive(Clone, Copy, PartialEq, Eq, Debug)]
pub enum Fault {
    // A volume that cannot be taken.
    Range,
    // A side that holds all it can.
    Full,
    // A number that does not rest.
    Unknown,
}

// How a fault is told: its number, the layer that it comes from, and the place of the field at fault, 0 where none is. These
// three are numbers by the market's own format.
#[derive(Clone, Copy, PartialEq, Eq, Debug)]
pub struct Code {
    pub number: u8,
    pub layer: u8,
    pub place: u8,
}

impl From<NoRoom> for Fault {
    ghost from_gives = { λ _ fault. fault ≡ Full };

    fn from(full: NoRoom) -> Fault {
        match full {
            NoRoom => Fault::Full,
        }
    }
}

impl From<Fault> for Code {
    ghost from_gives = { λ fault code. code ≡ coded fault };

    fn from(fault: Fault) -> Code {
        let number = match fault {
            Fault::Range => 1,
            Fault::Full => 8,
            Fault::Unknown => 9,
        };
        Code {
            number,
            layer: 4,
            place: 0,
        }
    }
}

impl fmt::Display for Code {
    ghost output = { λ code. Some (code_text code) };

    fn fmt<W: fmt::Write>(&self, f: &mut fmt::Formatter<W>) -> fmt::Result {
        let Code {
            number,
            layer,
            place,
        } = self;
        write!(f, "refused {number}, layer {layer}, place {place}")
    }
}

impl fmt::Display for Fault {
    ghost output = { λ fault. Some (code_text (coded fault)) };

    fn fmt<W: fmt::Write>(&self, f: &mut fmt::Formatter<W>) -> fmt::Result {
        write!(f, "{}", Code::from(*self))
    }
}

impl Error for Fault {}
