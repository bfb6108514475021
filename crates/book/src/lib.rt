// The order book: its sides, its resting orders and their priority, and what any book is by the two lists that it stands for.
#![tactic(auto)]

mod fault;
mod keeping;
mod orders;
mod priorities;
mod priority;
mod read;
mod resting;
mod side;
mod sign;
mod snapshot;
mod whole;

pub use fault::{Code, Fault};
pub use orders::Orders;
pub use priorities::worked_priorities;
pub use read::ReadBook;
pub use resting::Resting;
pub use side::{Side, UnknownSide};
pub use sign::Sign;
pub use snapshot::Snapshot;
pub use whole::{Book, Position};
