// The fill of the sample, worked by hand, and proved of the definitions by computation.
ghost use Rattle.worked_fill.specs.Worked.{WorkedFillHolds};

fn worked_fill_holds()
    ensures { WorkedFillHolds }
{}
