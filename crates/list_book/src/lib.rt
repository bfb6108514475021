// The ordered list: a book that keeps each side's orders in an array, best first.
#![tactic(auto)]

mod row;

pub use row::Row;

pub type ListBook = two_sided::TwoSided<Row>;
