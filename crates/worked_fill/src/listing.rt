// The asks of a book as text.
ghost use Rattle.std.specs.Prelude.{◌≡◌, Some};
ghost use Rattle.std.specs.Fmt.{WritesOnOk};
ghost use Rattle.worked_fill.specs.Text.{HiddenAsksAreNotShown, ask_text, asks_text, listing_text};

use crate::lot::Lot;
use book::{Orders, ReadBook, Resting, Side};
use std::fmt;

// The asks of a book as customers see them, without the hidden ones, and as they are.
#[derive(Clone, Copy)]
pub struct Listing<'a, B>(pub &'a B);

fn write_ask<W: fmt::Write>(f: &mut fmt::Formatter<W>, order: Resting, hidden: bool) -> fmt::Result
    ensures { WritesOnOk W.write_str_gives f.old result (ask_text hidden order) f.new }
{
    let lot = Lot::from(order);
    if order.visible {
        writeln!(f, "  {lot}")
    } else if hidden {
        writeln!(f, "  {lot}, hidden")
    } else {
        Ok(())
    }
}

// In priority order, the hidden ones only if they are to be shown.
fn write_asks<W: fmt::Write, B: ReadBook>(
    f: &mut fmt::Formatter<W>,
    book: &B,
    hidden: bool,
) -> fmt::Result
    ensures { WritesOnOk W.write_str_gives f.old result (asks_text hidden (B.asks book.now)) f.new }
{
    for order in Orders::of(book, Side::Ask) {
        write_ask(f, order, hidden)?;
    }
    Ok(())
}

impl<B: ReadBook> fmt::Display for Listing<'_, B> {
    ghost output = { λ listing. Some (listing_text (B.asks listing.0.now)) };

    fn fmt<W: fmt::Write>(&self, f: &mut fmt::Formatter<W>) -> fmt::Result {
        writeln!(f, "Asks as a customer sees them, prices in euro:")?;
        write_asks(f, self.0, false)?;
        writeln!(f, "Asks as they are:")?;
        write_asks(f, self.0, true)
    }
}

// What a customer sees is what would stand there if no ask were hidden.
fn hidden_asks_are_not_shown()
    ensures { HiddenAsksAreNotShown }
{}
