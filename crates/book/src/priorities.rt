// Priorities worked by hand, proved of the definition by computation.
ghost use Rattle.std.specs.Prelude.{◌≡◌, length};
ghost use Rattle.book.specs.Priorities.{pairs, PrioritiesHold};

// How many pairs there are.
pub fn worked_priorities() -> usize
    ensures pairs { PrioritiesHold }
    ensures count { result ≡ length pairs }
{
    6
}
