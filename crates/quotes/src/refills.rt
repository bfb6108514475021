// Fills worked by hand, proved of the definition by computation.
ghost use Rattle.std.specs.Prelude.{◌≡◌, length};
ghost use Rattle.quotes.specs.Refills.{rows, RefillsHold};

// How many there are.
pub fn worked_refills() -> usize
    ensures rows { RefillsHold }
    ensures count { result ≡ length rows }
{
    7
}
