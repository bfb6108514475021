// What is timed: a book filled to a depth, and calls on it.
use book::{Book, Resting, Side};
use std::fmt;

// Orders stand on so many limits, each with some at every depth.
const LIMITS: u32 = 3;

#[derive(Clone, Copy)]
pub enum Kind {
    EnterBest,
    EnterInside,
    EnterWorst,
    TakeFirst,
    RemoveMiddle,
}

impl fmt::Display for Kind {
    fn fmt<W: fmt::Write>(&self, f: &mut fmt::Formatter<W>) -> fmt::Result {
        f.pad(match self {
            Kind::EnterBest => "enter at the best",
            Kind::EnterInside => "enter inside",
            Kind::EnterWorst => "enter at the worst",
            Kind::TakeFirst => "take the first",
            Kind::RemoveMiddle => "remove the middle",
        })
    }
}

impl Kind {
    // How many orders stand before the calls: so many that half the depth can be entered, or taken away.
    pub fn standing(self, depth: u32) -> u32 {
        match self {
            Kind::TakeFirst | Kind::RemoveMiddle => depth,
            _ => depth / 2,
        }
    }

    // The calls that are timed: half the depth. (One `match` in the loop: what a kind does is one line beside the others.)
    pub fn call_all<B: Book>(self, book: &mut B, depth: u32, middle: &[Option<u32>]) {
        for (call, number) in (0..depth / 2).zip(middle) {
            match self {
                Kind::EnterBest => enter(book, call.saturating_add(1_000), 0),
                Kind::EnterInside => enter(book, call.saturating_add(1_000), LIMITS / 2),
                Kind::EnterWorst => enter(book, call.saturating_add(1_000), LIMITS - 1),
                Kind::TakeFirst => {
                    let _ = book.take(Side::Ask, 100);
                }
                Kind::RemoveMiddle => {
                    if let Some(number) = number {
                        let _ = book.remove(*number);
                    }
                }
            }
        }
    }
}

fn enter<B: Book>(book: &mut B, number: u32, level: u32) {
    let order = Resting {
        number,
        member: 40,
        limit: level.saturating_mul(10).saturating_add(54_300),
        volume: 100,
        visible: true,
    };
    let _ = book.enter(Side::Ask, order);
}

// Orders numbered from 1, on each limit in turn.
pub fn fill<B: Book>(book: &mut B, orders: u32) {
    for i in 0..orders {
        enter(book, i.saturating_add(1), i % LIMITS);
    }
}

// The numbers that stand in the middle, one after the other is removed.
pub fn middle_numbers<B: Book + Copy>(book: &B) -> [Option<u32>; 64] {
    let mut book = *book;
    let mut numbers = [None; 64];
    for number in &mut numbers {
        if let Some(order) = book.look(Side::Ask, book.count(Side::Ask) / 2) {
            *number = Some(order.number);
            let _ = book.remove(order.number);
        }
    }
    numbers
}
