// The orders of one limit together.
use book::Resting;

#[derive(Clone, Copy)]
pub struct Level {
    pub limit: u32,
    pub orders: usize,
    pub shares: u64,
}

impl Level {
    pub fn of(order: Resting) -> Level {
        Level {
            limit: order.limit,
            orders: 1,
            shares: order.volume as u64,
        }
    }

    // One level of two that have the same limit.
    pub fn joined(self, next: Level) -> Result<Level, (Level, Level)> {
        if self.limit != next.limit {
            return Err((self, next));
        }
        Ok(Level {
            limit: self.limit,
            orders: self.orders.saturating_add(next.orders),
            shares: self.shares.saturating_add(next.shares),
        })
    }
}
