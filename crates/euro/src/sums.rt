// Sums over a whole order.
ghost use Rattle.std.specs.Prelude.{◌-◌, ◌*◌, ◌/◌, ◌^◌, ◌<◌, ◌≤◌};
ghost use Rattle.std.specs.Option.{SomeIff};

// The average in ten-thousandths of a euro, the rest dropped. None where there is no share, or the cost is too large.
pub fn ten_thousandths(cost: u64, volume: u32) -> Option<u64>
    ensures { SomeIff result ((1 ≤ volume) × (cost * 10 < 2 ^ 64)) (cost * 10 / volume) }
{
    cost.checked_mul(10)?.checked_div(volume as u64)
}

// What a buying customer saves at the price against the cost in the book. None where the price is worse.
pub fn gain(cost: u64, volume: u32, price: u64) -> Option<u64>
    ensures { SomeIff result (price * volume ≤ cost) (cost - price * volume) }
{
    cost.checked_sub(price.checked_mul(volume as u64)?)
}
