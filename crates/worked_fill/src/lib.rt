// One customer's order, priced against the same few asks and filled by an executor's quote, as the programs show it.
#![tactic(auto)]

mod account;
mod figures;
mod listing;
mod lot;
mod sample;
mod worked;

pub use account::Account;
pub use figures::{Fill, NoFill};
pub use listing::Listing;
pub use lot::Lot;
pub use sample::{VOLUME, enter_asks};
