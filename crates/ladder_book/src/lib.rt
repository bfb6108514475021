// The ladder: a book that keeps a queue of orders at each limit and mark, for markets with many orders at few limits.
#![tactic(auto)]

mod ladder;
mod level;
mod links;
mod walk;

pub use ladder::Ladder;

pub type LadderBook = two_sided::TwoSided<Ladder>;
