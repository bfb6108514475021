// What the text of an amount means, proved of its definition.
ghost use Rattle.euro.specs.Text.{AmountsHold, TextIsTheAmount};

// Amounts written out by hand come out of it, and its digits are the amount.
fn text_is_the_amount()
    ensures examples { AmountsHold }
    ensures digits { TextIsTheAmount }
{}
