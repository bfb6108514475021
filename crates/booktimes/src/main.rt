// Times the calls of the two books, side by side, at several depths. The command line says how often; without that it only says
// how to ask.
#![tactic(auto)]

mod script;
mod timing;

use anyhow::anyhow;
use book::Book;
use ladder_book::LadderBook;
use list_book::ListBook;
use script::Kind;
use std::env;
use std::rt::{Clock, Env};
use timing::Timing;

const KINDS: [Kind; 5] = [
    Kind::EnterBest,
    Kind::EnterInside,
    Kind::EnterWorst,
    Kind::TakeFirst,
    Kind::RemoveMiddle,
];

fn print_line<B: Book + Copy>(
    rt: &(impl Clock + Print),
    name: &str,
    book: B,
    kind: Kind,
    rounds: u32,
) -> anyhow::Result<()> {
    print!(rt; "{kind:<18} {name:<6}")?;
    for depth in [8, 32, 128] {
        let timing = Timing {
            kind,
            depth,
            rounds,
        };
        let spent = timing.tenths(rt, book)?;
        print!(rt; " {:>4}.{}", spent / 10, spent % 10)?;
    }
    println!(rt; "")?;
    Ok(())
}

fn print_times(rt: &(impl Clock + Print), rounds: u32) -> anyhow::Result<()> {
    println!(rt; "nanoseconds a call         at 8  at 32 at 128 orders, on 3 limits")?;
    for kind in KINDS {
        print_line(rt, "list", ListBook::new(), kind, rounds)?;
        print_line(rt, "ladder", LadderBook::new(), kind, rounds)?;
    }
    Ok(())
}

fn run(rt: &(impl Alloc + Clock + Env + Print)) -> anyhow::Result<()> {
    let mut words = env::args(rt)?;
    let Some(rounds) = words.nth(1) else {
        println!(rt;
            "booktimes ROUNDS: times the calls of both books, in ten runs of so many rounds"
        )?;
        return Ok(());
    };
    match rounds.parse::<u32>() {
        Ok(rounds) => print_times(rt, rounds),
        Err(_) => Err(anyhow!("ROUNDS is no number")),
    }
}

fn main(rt: HostRuntime) -> anyhow::Result<()> {
    run(&rt)
}
