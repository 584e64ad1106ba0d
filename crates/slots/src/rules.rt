// The three rules of leans, each as a test of one slot.
ghost use Rattle.std.specs.Prelude.{◌≡◌, ◌-◌, ◌≤◌, true, ◌||◌, ◌-ℤ◌, int_le, nat_le};
ghost use Rattle.curve.specs.Limits.{top};
ghost use Rattle.optimum.specs.Leans.{bounded, follows_move, at_rest};

use crate::slot::Slot;
use curve::Curve;

// What the rules look at in one slot: the level before it, if there is one, its level, its lean and the lean after it.
#[derive(Drop)]
pub(crate) struct Stand<'s, C> {
    pub(crate) slot: &'s Slot<C>,
    pub(crate) before: Option<u16>,
    pub(crate) level: u16,
    pub(crate) lean: i64,
    pub(crate) next: i64,
    ghost level_held: { level ≤ top },
    ghost bounds_held: { slot.now.high ≤ top },
}

impl<'s, C: Curve> Stand<'s, C> {
    ghost use Rattle.slots.specs.Stands.{slot_stand, small};

    // The first lean is 0, and every later one lies from minus its down toll to its up toll.
    #[tactic(auto, unfolding(optimum::specs::Leans::bounded))]
    pub(crate) fn bounded(&self) -> bool
        ensures { result ≡ bounded (slot_stand C.Curve.ground C.Curve.steps self.now) }
    {
        match self.before {
            None => self.lean == 0,
            Some(_) => {
                self.lean >= -i64::from(self.slot.down) && self.lean <= i64::from(self.slot.up)
            }
        }
    }

    // Where the level rises, the lean is the up toll; where it falls, minus the down toll.
    #[tactic(auto, unfolding(optimum::specs::Leans::follows_move))]
    pub(crate) fn follows_move(&self) -> bool
        ensures { result ≡ follows_move (slot_stand C.Curve.ground C.Curve.steps self.now) }
    {
        match self.before {
            Some(before) if before < self.level => self.lean == i64::from(self.slot.up),
            Some(before) if before > self.level => self.lean == -i64::from(self.slot.down),
            _ => true,
        }
    }

    // What the next lean gains over the slot's own, once both are known to be small.
    fn gain(&self) -> i64
        requires { small (slot_stand C.Curve.ground C.Curve.steps self.now) ≡ true }
        ensures { result ≡ self.now.next -ℤ self.now.lean }
    {
        self.next - self.lean
    }

    // No step up costs less than it gains.
    fn rests_upward(&self, gain: i64) -> bool
        ensures { result ≡ (nat_le self.now.slot.now.high self.now.level || int_le gain (C.Curve.steps self.now.slot.now.curve self.now.level)) }
    {
        self.level >= self.slot.high || self.slot.curve.step(self.level) >= gain
    }

    // No step down saves more than it loses.
    fn rests_downward(&self, gain: i64) -> bool
        ensures { result ≡ (nat_le self.now.level self.now.slot.now.low || int_le (C.Curve.steps self.now.slot.now.curve (self.now.level - 1)) gain) }
    {
        self.level <= self.slot.low || self.slot.curve.step(self.level - 1) <= gain
    }

    // No step up costs less than the next lean gains over its own, and no step down saves more.
    #[tactic(auto, unfolding(optimum::specs::Leans::at_rest))]
    pub(crate) fn at_rest(&self) -> bool
        requires { small (slot_stand C.Curve.ground C.Curve.steps self.now) ≡ true }
        ensures { result ≡ at_rest (slot_stand C.Curve.ground C.Curve.steps self.now) }
    {
        let gain = self.gain();
        self.rests_upward(gain) && self.rests_downward(gain)
    }
}
