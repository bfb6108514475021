// Shows one customer's order priced and filled by an executor's quote, from the book to what the customer gains, and the quote
// refilled after it.
#![tactic(auto)]

use anyhow::Context;
use book::{Side, worked_priorities};
use euro::Euro;
use list_book::ListBook;
use pricing::worked_figures;
use providers::{ProviderFields, Providers};
use quotes::{QuoteFields, QuoteSide, Quotes, Whose, WhoseFields, worked_refills};
use std::io;
use worked_fill::{Account, Fill, Listing, VOLUME, enter_asks};

// The customer is a member.
const MEMBER: u8 = 30;

const EXECUTOR: u8 = 2;

// The executor's ask quote, 0.008 better than the average.
fn enter_quote(quotes: &mut Quotes) -> Result<u64, quotes::Fault> {
    quotes.enter(QuoteFields {
        whose: WhoseFields {
            executor: EXECUTOR as u64,
            side: 1,
        },
        relative: 8,
        boundary: 0,
        size: 600,
        reserve: 700,
    })
}

// The member agrees with executor 2, bit 1 of the mask, and has it as its default.
fn set_provider(providers: &mut Providers) -> Result<u32, providers::Fault> {
    providers.set(ProviderFields {
        member: MEMBER as u64,
        agreements: 2,
        default: EXECUTOR as u64,
    })
}

fn print_side(rt: &impl Print, when: &str, side: QuoteSide) -> io::Result<()> {
    println!(rt;
        "{when}: {} displayed, {} in reserve.",
        side.displayed, side.reserve
    )
}

// The quote filled by the order, and by another like it.
fn print_refills(rt: &impl Print, quotes: &mut Quotes, whose: Whose) -> anyhow::Result<()> {
    for when in ["The quote after the fill", "After another such fill"] {
        let side = quotes
            .fill(whose, VOLUME)
            .context("the quote displays too little")?;
        print_side(rt, when, side)?;
    }
    Ok(())
}

fn run(rt: &impl Print) -> anyhow::Result<()> {
    let mut book = ListBook::new();
    let mut quotes = Quotes::new();
    let mut providers = Providers::new();
    enter_asks(&mut book)?;
    enter_quote(&mut quotes)?;
    let agreed = set_provider(&mut providers)?;
    print!(rt; "{}", Listing(&book))?;
    let executor = providers.default_of(MEMBER).context("no quote stands")?;
    let whose = Whose {
        executor,
        side: Side::Ask,
    };
    let side = quotes.standing(whose).context("no quote stands")?;
    println!(rt;
        "Executor {executor} quotes {} better than the average.",
        Euro(side.relative as u64)
    )?;
    print_side(rt, "Its ask quote", side)?;
    println!(rt; "Member {MEMBER} agrees with {agreed} executor, and buys {VOLUME}.")?;
    let fill = Fill::of(&book, VOLUME, side.relative)?;
    println!(rt; "{}", Account { book: &book, fill })?;
    print_refills(rt, &mut quotes, whose)?;
    println!(rt;
        "Worked by hand, and proved of the same rules: {} figures, {} priorities, {} refills.",
        worked_figures(),
        worked_priorities(),
        worked_refills()
    )?;
    Ok(())
}

fn main(rt: HostRuntime) -> anyhow::Result<()> {
    run(&rt)
}
