// How long calls take.
use crate::script::{Kind, fill, middle_numbers};
use anyhow::anyhow;
use book::{Book, Side};
use std::rt::Clock;
use std::time::{Duration, Instant};

// Rounds are timed in so many runs, and the fastest run counts: what else the machine does disturbs it least.
const RUNS: u32 = 10;

// Calls of one kind at a depth, so many rounds of them.
#[derive(Clone, Copy)]
pub struct Timing {
    pub kind: Kind,
    pub depth: u32,
    pub rounds: u32,
}

impl Timing {
    // What it takes to read the clock, at the start and at the end of each round.
    fn clock(self, rt: &impl Clock) -> anyhow::Result<Duration> {
        let mut spent = Duration::ZERO;
        for _ in 0..self.rounds {
            let start = Instant::now(rt)?;
            spent = spent.saturating_add(start.elapsed(rt)?);
        }
        Ok(spent)
    }

    // The calls of one run. Each round has a fresh copy of the filled book; the copying is not timed.
    fn calls<B: Book + Copy>(self, rt: &impl Clock, filled: B) -> anyhow::Result<Duration> {
        let middle = middle_numbers(&filled);
        let before = filled.count(Side::Ask);
        let mut spent = Duration::ZERO;
        for _ in 0..self.rounds {
            let mut book = filled;
            let start = Instant::now(rt)?;
            self.kind.call_all(&mut book, self.depth, &middle);
            spent = spent.saturating_add(start.elapsed(rt)?);
            if book.count(Side::Ask).abs_diff(before) != (self.depth / 2) as usize {
                return Err(anyhow!("a call was refused"));
            }
        }
        Ok(spent)
    }

    // Tenths of nanoseconds a call, without the clock's own.
    pub fn tenths<B: Book + Copy>(self, rt: &impl Clock, empty: B) -> anyhow::Result<u128> {
        let mut filled = empty;
        fill(&mut filled, self.kind.standing(self.depth));
        let mut fastest = Duration::MAX;
        let mut clock_alone = Duration::MAX;
        for _ in 0..RUNS {
            fastest = fastest.min(self.calls(rt, filled)?);
            clock_alone = clock_alone.min(self.clock(rt)?);
        }
        let called = (self.rounds as u128)
            .saturating_mul((self.depth / 2) as u128)
            .max(1);
        Ok(
            fastest
                .saturating_sub(clock_alone)
                .as_nanos()
                .saturating_mul(10)
                / called,
        )
    }
}
