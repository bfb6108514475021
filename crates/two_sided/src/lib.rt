// A book of two sides that are kept alike: what each call does to one side is the side's, and which side it is for is settled
// here, once for every way of keeping orders.
#![tactic(auto)]

mod book_side;
mod whole;

pub use book_side::BookSide;
pub use whole::TwoSided;
