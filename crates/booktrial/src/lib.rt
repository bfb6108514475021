// A trial of books: the same drawn calls to each of them and to a plain book that is kept in no order, with every answer and
// both sides compared after every call.
#![tactic(auto)]

mod arrivals;
mod call;
mod difference;
mod draw;
mod plain;
mod rivals;
mod tally;
mod trial;
mod weight;

pub use call::{Answer, Call};
pub use difference::Difference;
pub use draw::Phase;
pub use rivals::{Both, Rivals};
pub use tally::{Count, Faults, Tally};
pub use trial::Trial;
