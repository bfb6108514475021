// The sides of eight executors, two each, every one of them sound, and what is done with them.
ghost use Rattle.std.specs.Prelude.{◌≡◌, ◌+◌, ◌<◌, true, length, replicate, IfSome, OnErr, IfNone, Some, None, Ok};
ghost use Rattle.std.proofs.Props.{props};
ghost use Rattle.fields.specs.Ranges.{within};
ghost use Rattle.quotes.specs.Entries.{read, read_whose};
ghost use Rattle.quotes.specs.Fills.{total};
ghost use Rattle.quotes.specs.Soundness.{AllSound, Sound};
ghost use Rattle.quotes.specs.Standing.{ChangesJustThat, EverySideIsSound};
ghost use Rattle.quotes.specs.Tables.{after_fill, entered, enters, fills_at, placed, put, stands, tells, total_of, withdrawn, withdraws};
ghost use Rattle.quotes.specs.declared.entry.Quote.{Quote};
ghost use Rattle.quotes.specs.declared.entry.Whose.{Whose};

use crate::entry::{Quote, QuoteFields, Whose, WhoseFields};
use crate::fault::Fault;
use crate::quote_side::{QuoteSide, Volumes};
use book::Side;

const PLACES: usize = 16;

#[derive(Clone, Copy)]
pub struct Quotes {
    // A place for each executor and side, so there is no length.
    sides: [Option<QuoteSide>; PLACES],
    ghost long: { length sides ≡ 16 },
    ghost sound: { AllSound sides } by { Prim.hlevel props },
}

impl Whose {
    // The place in the table, an executor's bid before the ask; none where there is no such executor.
    fn place(self) -> Option<usize>
        ensures answer { result ≡ placed self }
        ensures within { IfSome result (λ i. i < 16) }
    {
        if !(1..=8).contains(&self.executor) {
            return None;
        }
        let first = 2 * (self.executor as usize - 1);
        match self.side {
            Side::Bid => Some(first),
            Side::Ask => Some(first + 1),
        }
    }
}

impl Quotes {
    pub fn new() -> Quotes
        ensures { result.sides ≡ replicate 16 None }
    {
        Quotes {
            sides: [None; PLACES],
        }
    }

    // The side that stands, if one does. Whatever was done to the table, every side in it is sound.
    pub fn standing(&self, whose: Whose) -> Option<QuoteSide>
        ensures answer { result ≡ stands whose self.now.sides }
        ensures sound { IfSome result Sound }
        ensures all { EverySideIsSound self.now.sides }
    {
        self.sides[whose.place()?]
    }

    fn put(&mut self, whose: Whose, side: Option<QuoteSide>)
        requires executor { within 1 8 whose.executor ≡ true }
        requires sound { IfSome side Sound }
        ensures sides { self.new.sides ≡ put whose side self.old.sides }
        ensures that { ChangesJustThat whose side self.old.sides self.new.sides }
    {
        if let Some(place) = whose.place() {
            self.sides[place] = side;
        }
    }

    // Replaces a side whole, and answers the volume that it takes back.
    pub fn enter(&mut self, fields: QuoteFields) -> Result<u64, Fault>
        ensures answer { result ≡ enters fields self.old.sides }
        ensures after { self.new.sides ≡ entered fields self.old.sides }
        ensures that { (q : Quote) → read fields ≡ Ok q → ChangesJustThat q.whose (Some q.terms) self.old.sides self.new.sides }
        ensures refused { OnErr result (self.new ≡ self.old) }
    {
        let quote = Quote::try_from(fields)?;
        let before = self.standing(quote.whose);
        self.put(quote.whose, Some(quote.terms));
        Ok(before.map_or(0, QuoteSide::total))
    }

    // Takes a side back, and answers its volume.
    pub fn withdraw(&mut self, fields: WhoseFields) -> Result<u64, Fault>
        ensures answer { result ≡ withdraws fields self.old.sides }
        ensures after { self.new.sides ≡ withdrawn fields self.old.sides }
        ensures that { (w : Whose) → read_whose fields ≡ Ok w → ChangesJustThat w None self.old.sides self.new.sides }
        ensures refused { OnErr result (self.new ≡ self.old) }
    {
        let whose = Whose::try_from(fields)?;
        let before = self.standing(whose).ok_or(Fault::NoSide)?;
        self.put(whose, None);
        Ok(before.total())
    }

    // What a side displays, and its reserve; 0 and 0 where none stands.
    pub fn tell(&self, fields: WhoseFields) -> Result<Volumes, Fault>
        ensures { result ≡ tells fields self.now.sides }
    {
        let side = self.standing(Whose::try_from(fields)?);
        Ok(side.map(Volumes::from).unwrap_or_default())
    }

    // Takes shares from what a side displays, refills it, and answers the side as it stands then. None, and nothing changed,
    // where no side stands or it displays less.
    pub fn fill(&mut self, whose: Whose, shares: u32) -> Option<QuoteSide>
        ensures answer { result ≡ fills_at whose shares self.old.sides }
        ensures after { self.new.sides ≡ after_fill whose shares self.old.sides }
        ensures that { IfSome result (λ s. ChangesJustThat whose (Some s) self.old.sides self.new.sides) }
        ensures kept { IfSome result (λ s. total s + shares ≡ total_of (stands whose self.old.sides)) }
        ensures refused { IfNone result (self.new ≡ self.old) }
    {
        let filled = self.standing(whose)?.fill(shares)?;
        self.put(whose, Some(filled));
        Some(filled)
    }
}
