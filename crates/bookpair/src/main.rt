// Drives the ordered list and the ladder side by side through drawn calls, beside a book that is kept in no order, and compares
// every answer and both sides after every call. It ends with an error where they differ.
#![tactic(auto)]

mod level;

use book::{Orders, ReadBook, Side};
use booktrial::{Both, Phase, Rivals, Trial};
use euro::Euro;
use itertools::Itertools;
use ladder_book::LadderBook;
use level::Level;
use list_book::ListBook;
use std::io::Print;

// Orders alone, until both sides are full and past it; then calls of every kind; then, on the emptied books, more of them.
const FILLING: u32 = 280;

const MIXED: u32 = 2_500;

const AFTER: u32 = 1_220;

// Each program has a summary, and a run, of its own: few lines, with other words and numbers.
fn print_tally<R: Rivals>(rt: &impl Print, trial: &Trial<R>) -> anyhow::Result<()> {
    let tally = trial.tally;
    println!(rt;
        "calls: enter {}, take {}, remove {}, find {}, empty 1",
        tally.enters.calls, tally.takes.calls, tally.removes.calls, tally.finds.calls
    )?;
    println!(rt;
        "refused: enter {} (side full), take {} (volume), remove {} and find {} (number unknown)",
        tally.enters.refused, tally.takes.refused, tally.removes.refused, tally.finds.refused
    )?;
    println!(rt;
        "After every call, the answers and both sides of the list and the ladder were those of the plain book."
    )?;
    println!(rt;
        "Place times number times volume, over all orders after every call: {}",
        trial.weight
    )?;
    Ok(())
}

// The first levels of each side.
fn print_levels<B: ReadBook>(rt: &impl Print, name: &str, book: &B) -> anyhow::Result<()> {
    println!(rt; "{name}, the first levels of its bids and asks:")?;
    for side in [Side::Bid, Side::Ask] {
        let levels = Orders::of(book, side)
            .map(Level::of)
            .coalesce(Level::joined);
        for level in levels.take(3) {
            println!(rt;
                "  at {} orders {:>2}, shares {:>4}",
                Euro(level.limit as u64),
                level.orders,
                level.shares
            )?;
        }
    }
    Ok(())
}

fn run(rt: &impl Print) -> anyhow::Result<()> {
    let mut trial = Trial::new(Both::new(ListBook::new(), LadderBook::new()));
    trial.play(Phase::Orders, FILLING)?;
    trial.play(Phase::Calls, MIXED)?;
    trial.empty()?;
    trial.play(Phase::Calls, AFTER)?;
    print_tally(rt, &trial)?;
    print_levels(rt, "The ordered list", &trial.books.first)?;
    print_levels(rt, "The ladder", &trial.books.second)
}

fn main(rt: HostRuntime) -> anyhow::Result<()> {
    run(&rt)
}
