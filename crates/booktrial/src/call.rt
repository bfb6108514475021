// The calls of a trial, and what a book answers to them.
ghost use Rattle.std.specs.Prelude.{◌≡◌};
ghost use Rattle.booktrial.specs.Calls.{after, answered, lists_of};

use book::{Book, Fault, Position, Resting, Side};

#[derive(Clone, Copy, PartialEq, Eq, Debug)]
pub enum Call {
    Enter(Side, Resting),
    Take(Side, u32),
    Remove(u32),
    Find(u32),
}

// What a book answers where it refuses nothing.
#[derive(Clone, Copy, PartialEq, Eq, Debug)]
pub enum Answer {
    Done,
    Volume(u32),
    At(Position),
}

pub(crate) fn called<B: Book>(book: &mut B, call: Call) -> Result<Answer, Fault>
    ensures answer { result ≡ answered call (lists_of B.ReadBook book.old) }
    ensures lists { lists_of B.ReadBook book.new ≡ after call (lists_of B.ReadBook book.old) }
{
    match call {
        Call::Enter(side, order) => book.enter(side, order).map(|()| Answer::Done),
        Call::Take(side, volume) => book.take(side, volume).map(|()| Answer::Done),
        Call::Remove(number) => book.remove(number).map(Answer::Volume),
        Call::Find(number) => book.find(number).map(Answer::At),
    }
}
