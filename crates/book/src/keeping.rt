// What the calls of a book keep and tell, proved of their definitions.
ghost use Rattle.book.specs.Keeping.{CallsKeepOrder, CallsKeepFaces, FindIsExact};

// Lists in priority order stay so, and only volumes change.
fn calls_keep_order()
    ensures order { CallsKeepOrder }
    ensures faces { CallsKeepFaces }
{}

// A number is refused exactly where no order has it.
fn find_is_exact()
    ensures { FindIsExact }
{}
