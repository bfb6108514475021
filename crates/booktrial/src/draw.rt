// Calls that look drawn at random and are the same in every run.
ghost use Rattle.std.specs.Prelude.{◌≡◌, ◌<◌, ◌≤◌};
ghost use Rattle.booktrial.specs.Drawn.{after_steps, any_drawn, below, drawn, enter_drawn, order_drawn, side_drawn, stepped, take_drawn, volume_drawn, IsEnter, IsTakeFrom, MayDraw};
ghost use Rattle.booktrial.specs.PlainLists.{plain_lists};

use crate::call::Call;
use crate::plain::Plain;
use book::{Resting, Side};

// What is drawn in a part of a trial: orders alone, or calls of every kind.
#[derive(Clone, Copy, PartialEq, Eq, Debug)]
pub enum Phase {
    Orders,
    Calls,
}

// Where every trial begins.
const START: u64 = 20_000;

#[derive(Drop)]
pub(crate) struct Draw {
    state: u64,
}

impl Draw {
    pub(crate) fn new() -> Draw
        ensures { result.state ≡ START }
    {
        Draw { state: START }
    }

    // A number below `end`, which is at least 1.
    fn below(&mut self, end: u32) -> u32
        ensures number { result ≡ below end self.old.state }
        ensures state { self.new.state ≡ stepped self.old.state }
        ensures within { 0 < end → result < end }
    {
        self.state = self
            .state
            .wrapping_mul(6_364_136_223_846_793_005)
            .wrapping_add(1_442_695_040_888_963_407);
        let drawn = (self.state >> 33) as u32;
        drawn % end.max(1)
    }

    fn side(&mut self) -> Side
        ensures side { result ≡ side_drawn self.old.state }
        ensures state { self.new.state ≡ stepped self.old.state }
    {
        if self.below(2) == 0 {
            Side::Bid
        } else {
            Side::Ask
        }
    }

    // Few numbers and few limits, so that orders meet at one limit and numbers come twice.
    fn order(&mut self) -> Resting
        ensures order { result ≡ order_drawn self.old.state }
        ensures state { self.new.state ≡ after_steps 4 self.old.state }
        ensures number { (1 ≤ result.number) × (result.number ≤ 40) }
        ensures limit { (54300 ≤ result.limit) × (result.limit ≤ 54410) }
        ensures volume { (1 ≤ result.volume) × (result.volume ≤ 500) }
    {
        Resting {
            number: self.below(40).saturating_add(1),
            member: 40,
            limit: self.below(12).saturating_add(5_430).saturating_mul(10),
            volume: self.below(500).saturating_add(1),
            visible: self.below(3) != 0,
        }
    }

    // A volume to take where `first` is the first order: one time in three all of it, one time in eight nothing.
    fn volume(&mut self, first: Option<Resting>) -> u32
        ensures volume { result ≡ volume_drawn first self.old.state }
        ensures state { self.new.state ≡ after_steps 3 self.old.state }
    {
        let drawn = self.below(600);
        let whole = self.below(3) == 0;
        let nothing = self.below(8) == 0;
        match first {
            _ if nothing => 0,
            Some(first) if whole => first.volume,
            _ => drawn,
        }
    }

    fn enter(&mut self) -> Call
        ensures kind { IsEnter result }
        ensures call { result ≡ (enter_drawn self.old.state).call }
        ensures state { self.new.state ≡ (enter_drawn self.old.state).state }
    {
        let side = self.side();
        Call::Enter(side, self.order())
    }

    pub(crate) fn take(&mut self, side: Side, plain: &Plain) -> Call
        ensures kind { IsTakeFrom side result }
        ensures call { result ≡ (take_drawn side (plain_lists plain.now) self.old.state).call }
        ensures state { self.new.state ≡ (take_drawn side (plain_lists plain.now) self.old.state).state }
    {
        Call::Take(side, self.volume(plain.first(side)))
    }

    // A call of any kind: two in five enter, and the others share the rest. (One `match`: what else is drawn depends on the kind.)
    fn any(&mut self, plain: &Plain) -> Call
        ensures call { result ≡ (any_drawn (plain_lists plain.now) self.old.state).call }
        ensures state { self.new.state ≡ (any_drawn (plain_lists plain.now) self.old.state).state }
    {
        match self.below(10) {
            0..=3 => self.enter(),
            4 | 5 => {
                let side = self.side();
                self.take(side, plain)
            }
            6 | 7 => Call::Remove(self.below(50)),
            _ => Call::Find(self.below(50)),
        }
    }

    pub(crate) fn call(&mut self, phase: Phase, plain: &Plain) -> Call
        ensures kind { MayDraw phase result }
        ensures call { result ≡ (drawn phase (plain_lists plain.now) self.old.state).call }
        ensures state { self.new.state ≡ (drawn phase (plain_lists plain.now) self.old.state).state }
    {
        match phase {
            Phase::Orders => self.enter(),
            Phase::Calls => self.any(plain),
        }
    }
}
