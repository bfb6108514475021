// Figures worked by hand, proved of the definitions by computation.
ghost use Rattle.std.specs.Prelude.{◌≡◌, length};
ghost use Rattle.pricing.specs.Figures.{figures, FiguresHold};

// How many there are.
pub fn worked_figures() -> usize
    ensures figures { FiguresHold }
    ensures count { result ≡ length figures }
{
    10
}
