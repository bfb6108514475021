// Shows one customer's order priced and filled by an executor's quote, from the book to what the customer gains.
#![tactic(auto)]

use anyhow::anyhow;
use book::{Code, worked_priorities};
use euro::Euro;
use list_book::ListBook;
use pricing::worked_figures;
use worked_fill::{Account, Fill, Listing, VOLUME, enter_asks};

// The executor is better than the rounded average by this many thousandths of a euro.
const RELATIVE: u32 = 8;

fn run(rt: &impl Print) -> anyhow::Result<()> {
    let mut book = ListBook::new();
    enter_asks(&mut book).map_err(|fault| anyhow!(
        "the book refused an order: {}",
        Code::from(fault).number
    ))?;
    print!(rt; "{}", Listing(&book))?;
    println!(rt;
        "A customer buys {VOLUME}. An executor quotes {} better than the average.",
        Euro(RELATIVE as u64)
    )?;
    let fill = Fill::of(&book, VOLUME, RELATIVE)?;
    println!(rt; "{}", Account { book: &book, fill })?;
    println!(rt;
        "Worked by hand, and proved of the same rules: {} figures, {} priorities.",
        worked_figures(),
        worked_priorities()
    )?;
    Ok(())
}

fn main(rt: HostRuntime) -> anyhow::Result<()> {
    run(&rt)
}
