// One side of an executor's quote.
ghost use Rattle.std.specs.Prelude.{◌≡◌, ◌+◌, IfSome};
ghost use Rattle.quotes.specs.Fills.{fills, refilled, total, volumes};
ghost use Rattle.quotes.specs.Soundness.{Sound};

// Limits are in whole thousandths of a euro, volumes in shares. That a side is sound stands in contracts and is no ghost field:
// one would ask a proof of whoever builds a side, and of each definition that makes one.
#[derive(Clone, Copy, PartialEq, Eq, Debug)]
pub struct QuoteSide {
    // How much better than the book's average the price is.
    pub relative: u32,
    // The worst price for the executor, if any: an ask quote's lowest, a bid quote's highest.
    pub boundary: Option<u32>,
    pub size: u32,
    // At most the size, and less only where the reserve is empty.
    pub displayed: u32,
    pub reserve: u32,
}

// What the question tells of a side, by default of none.
#[derive(Clone, Copy, PartialEq, Eq, Default, Debug)]
pub struct Volumes {
    pub displayed: u32,
    pub reserve: u32,
}

impl From<QuoteSide> for Volumes {
    ghost from_gives = { λ side told. told ≡ volumes side };

    fn from(side: QuoteSide) -> Volumes {
        Volumes {
            displayed: side.displayed,
            reserve: side.reserve,
        }
    }
}

impl QuoteSide {
    // All that stands: displayed and reserve.
    pub fn total(self) -> u64
        ensures { result ≡ total self }
    {
        self.displayed as u64 + self.reserve as u64
    }

    // Raises what is displayed from the reserve, up to the size.
    fn refill(self) -> QuoteSide
        ensures answer { result ≡ refilled self }
    {
        let raise = self.size.saturating_sub(self.displayed).min(self.reserve);
        QuoteSide {
            displayed: self.displayed + raise,
            reserve: self.reserve - raise,
            ..self
        }
    }

    // The side after a fill; none where it displays less.
    pub fn fill(self, shares: u32) -> Option<QuoteSide>
        ensures answer { result ≡ fills shares self }
        ensures sound { Sound self → IfSome result Sound }
        ensures kept { IfSome result (λ after. total after + shares ≡ total self) }
    {
        let displayed = self.displayed.checked_sub(shares)?;
        let filled = QuoteSide { displayed, ..self };
        Some(filled.refill())
    }
}
