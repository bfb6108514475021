// Drives the ordered list through drawn calls, beside a book that is kept in no order, and compares every answer and both
// sides after every call. It ends with an error where they differ.
#![tactic(auto)]

use booktrial::{Phase, Rivals, Trial};
use list_book::ListBook;
use std::io::Print;

// Orders alone, until both sides are full and past it; then calls of every kind; then, on the emptied books, more of them.
const FILLING: u32 = 280;

const MIXED: u32 = 500;

const AFTER: u32 = 220;

// Each program has a summary, and a run, of its own: few lines, with other words and numbers.
fn print_tally<R: Rivals>(rt: &impl Print, trial: &Trial<R>) -> anyhow::Result<()> {
    let tally = trial.tally;
    println!(rt;
        "calls: enter {}, take {}, remove {}, find {}, empty 1",
        tally.enters.calls, tally.takes.calls, tally.removes.calls, tally.finds.calls
    )?;
    println!(rt;
        "refused: side full {}, volume out of range {}, number unknown {}",
        tally.faults.full, tally.faults.range, tally.faults.unknown
    )?;
    println!(rt; "After every call, the answer and both sides were those of the plain book.")?;
    println!(rt;
        "Place times number times volume, over all orders after every call: {}",
        trial.weight
    )?;
    Ok(())
}

fn run(rt: &impl Print) -> anyhow::Result<()> {
    let mut trial = Trial::new(ListBook::new());
    trial.play(Phase::Orders, FILLING)?;
    trial.play(Phase::Calls, MIXED)?;
    trial.empty()?;
    trial.play(Phase::Calls, AFTER)?;
    print_tally(rt, &trial)
}

fn main(rt: HostRuntime) -> anyhow::Result<()> {
    run(&rt)
}
