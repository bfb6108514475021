// Numbers as they are sent, held to their ranges.
#![tactic(auto)]

ghost use Rattle.std.specs.Prelude.{◌≡◌};
ghost use Rattle.std.specs.Range.{range_inclusive_start, range_inclusive_end};
ghost use Rattle.fields.specs.Ranges.{nonzero, ranged};

use std::ops::RangeInclusive;

// The value, where it is in its range, both ends in it; else the fault.
pub fn ranged<E: Drop>(value: u64, range: RangeInclusive<u32>, fault: E) -> Result<u32, E>
    ensures { result ≡ ranged (range_inclusive_start range) (range_inclusive_end range) fault value }
{
    // Its ends, and not `contains`, which leaves the end out of a range that was gone through.
    let (least, most) = range.into_inner();
    match u32::try_from(value) {
        Ok(value) if least <= value && value <= most => Ok(value),
        _ => Err(fault),
    }
}

// The number, of which 0 says none.
pub fn nonzero(number: u32) -> Option<u32>
    ensures { result ≡ nonzero number }
{
    (number != 0).then_some(number)
}
