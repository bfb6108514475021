// Amounts in euro.
ghost use Rattle.std.specs.Prelude.{Some};
ghost use Rattle.euro.specs.Text.{euro_text};

use std::fmt;

// Whole thousandths of a euro, shown as euro with three decimals.
#[derive(Clone, Copy)]
pub struct Euro(pub u64);

impl fmt::Display for Euro {
    ghost output = { λ e. Some (euro_text e.0) };

    #[tactic(auto, using(crate::proofs::Digits::zeros_in_front))]
    fn fmt<W: fmt::Write>(&self, f: &mut fmt::Formatter<W>) -> fmt::Result {
        let whole = self.0 / 1000;
        let rest = self.0 % 1000;
        write!(f, "{whole}.{rest:03}")
    }
}
