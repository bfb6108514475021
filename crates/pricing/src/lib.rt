// The price of a quote: the average that a customer's whole order would fetch over the orders that count, and the executor's
// price from it.
#![tactic(auto)]

mod averaging;
mod counting;
mod customer;
mod figures;
mod quoting;
mod records;
#[cfg(test)]
mod tests;

pub use averaging::walk;
pub use counting::left_out;
pub use customer::price_order;
pub use figures::worked_figures;
pub use quoting::quote_price;
pub use records::{Quotation, Walked};
