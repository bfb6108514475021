// How many calls there were, and how many were refused.
ghost use Rattle.std.specs.Prelude.{◌≡◌, is_err};
ghost use Rattle.booktrial.specs.Counts.{counted, one_more, tallied, with_fault};

use crate::call::{Answer, Call};
use book::Fault;

#[derive(Clone, Copy, Default, PartialEq, Eq, Debug)]
pub struct Count {
    pub calls: u32,
    pub refused: u32,
}

#[derive(Clone, Copy, Default, PartialEq, Eq, Debug)]
pub struct Faults {
    pub range: u32,
    pub full: u32,
    pub unknown: u32,
}

#[derive(Clone, Copy, Default, PartialEq, Eq, Debug)]
pub struct Tally {
    pub enters: Count,
    pub takes: Count,
    pub removes: Count,
    pub finds: Count,
    pub faults: Faults,
}

fn raise(count: &mut u32)
    ensures { count.new ≡ one_more count.old }
{
    *count = count.saturating_add(1);
}

impl Count {
    fn add(&mut self, refused: bool)
        ensures { self.new ≡ counted refused self.old }
    {
        raise(&mut self.calls);
        if refused {
            raise(&mut self.refused);
        }
    }
}

impl Faults {
    fn add(&mut self, fault: Fault)
        ensures { self.new ≡ with_fault fault self.old }
    {
        match fault {
            Fault::Range => raise(&mut self.range),
            Fault::Full => raise(&mut self.full),
            Fault::Unknown => raise(&mut self.unknown),
        }
    }
}

impl Tally {
    // Counts a call, and what was answered.
    pub(crate) fn count(&mut self, call: Call, told: Result<Answer, Fault>)
        ensures { self.new ≡ tallied call told self.old }
    {
        let refused = told.is_err();
        match call {
            Call::Enter(..) => self.enters.add(refused),
            Call::Take(..) => self.takes.add(refused),
            Call::Remove(_) => self.removes.add(refused),
            Call::Find(_) => self.finds.add(refused),
        }
        if let Err(fault) = told {
            self.faults.add(fault);
        }
    }
}
