// Amounts in euro for programs that show them: how one is written, and sums over a whole order.
#![tactic(auto)]

mod amount;
mod sums;
mod written;

pub use amount::Euro;
pub use sums::{gain, ten_thousandths};
