// Executors' quote sides: entry, withdrawal, fill and refill, and what they tell.
#![tactic(auto)]

mod entry;
mod fault;
mod quote_side;
mod refills;
mod table;
#[cfg(test)]
mod tests;

pub use entry::{Quote, QuoteFields, Whose, WhoseFields};
pub use fault::{Fault, Field};
pub use quote_side::{QuoteSide, Volumes};
pub use refills::worked_refills;
pub use table::Quotes;
