// The order that is filled, and the asks that it meets.
ghost use Rattle.std.specs.Prelude.{◌≡◌};
ghost use Rattle.worked_fill.specs.Sample.{entered_sample, enters_sample};

use book::{Book, Fault, Resting, Side};

// The customer buys this many shares.
pub const VOLUME: u32 = 500;

fn ask(number: u32, volume: u32, limit: u32, visible: bool) -> Resting
    ensures { result ≡ record { number = number; member = 40; limit = limit; volume = volume; visible = visible } }
{
    Resting {
        number,
        member: 40,
        limit,
        volume,
        visible,
    }
}

// The asks as they came, which is not in priority order.
pub fn enter_asks<B: Book>(book: &mut B) -> Result<(), Fault>
    ensures answer { result ≡ enters_sample (B.ReadBook.asks book.old) }
    ensures asks { B.ReadBook.asks book.new ≡ entered_sample (B.ReadBook.asks book.old) }
    ensures bids { B.ReadBook.bids book.new ≡ B.ReadBook.bids book.old }
{
    book.enter(Side::Ask, ask(1, 320, 54_460, true))?;
    book.enter(Side::Ask, ask(2, 50, 54_410, false))?;
    book.enter(Side::Ask, ask(3, 170, 54_390, true))
}
