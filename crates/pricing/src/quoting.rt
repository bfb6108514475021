// The rounded average and the price of a quote.
ghost use Rattle.std.specs.Prelude.{◌≡◌, ◌+◌, ◌*◌, ◌^◌, ◌<◌, ◌≤◌};
ghost use Rattle.pricing.specs.Price.{rounded, quoted, quotation, Nearest, BeatsTheCost};

use crate::records::{Quotation, Walked};
use book::Side;

// Cost by shares, rounded to the nearest thousandth, a half upwards.
fn round_average(cost: u64, volume: u32) -> u32
    requires some { 1 ≤ volume }
    requires sum { 2 * cost + volume < 2 ^ 64 }
    requires fits { rounded cost volume < 2 ^ 32 }
    ensures { result ≡ rounded cost volume }
{
    let volume = volume as u64;
    ((2 * cost + volume) / (2 * volume)) as u32
}

// The executor's price by the side of the quote: an ask quote is below the average by the relative limit, a bid quote above it.
// None where that is below 1.
pub fn quote_price(side: Side, average: u32, relative: u32) -> Option<u64>
    ensures { result ≡ quoted side average relative }
{
    let average = average as u64;
    let relative = relative as u64;
    let price = match side {
        Side::Bid => average + relative,
        Side::Ask => average.saturating_sub(relative),
    };
    (price >= 1).then_some(price)
}

// The price of an order that was walked. Its limits are of 32 bits, so no share costs more, and the average fits too.
pub(crate) fn quote_walked(side: Side, walked: Walked, volume: u32, relative: u32) -> Quotation
    requires some { 1 ≤ volume }
    requires few { volume ≤ 1000000 }
    requires bound { walked.cost ≤ volume * 4294967295 }
    ensures answer { result ≡ quotation side volume relative walked }
    ensures nearest { Nearest result.cost volume result.average }
    ensures better { 1 ≤ relative → BeatsTheCost side result.cost volume result.price }
{
    let Walked { cost, last } = walked;
    let average = round_average(cost, volume);
    let price = quote_price(side, average, relative);
    Quotation {
        cost,
        last,
        average,
        price,
    }
}
