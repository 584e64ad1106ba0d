// A slot of a day: its curve, its bounds, and its tolls for each level up and down.
ghost use Rattle.std.specs.Prelude.{◌≡◌, ◌&&◌, nat_le};
ghost use Rattle.slots.specs.Refusals.{slot_refusal, told};
ghost use Rattle.slots.specs.Slots.{bounds_hold, tolls_hold};

use crate::limits::TOLL_LIMIT;
use crate::refusal::Refusal;
use curve::limits::TOP;

#[derive(Clone, Copy, Default, PartialEq, Eq, Debug)]
pub struct Slot<C> {
    pub curve: C,
    pub low: u16,
    pub high: u16,
    pub up: u32,
    pub down: u32,
}

// Whether low is not above high, and high not above the warmest level.
pub fn bounds_hold<C>(slot: &Slot<C>) -> bool
    ensures { result ≡ bounds_hold slot.now }
{
    slot.low <= slot.high && slot.high <= TOP
}

// Whether neither toll is above the largest.
pub fn tolls_hold<C>(slot: &Slot<C>) -> bool
    ensures { result ≡ tolls_hold slot.now }
{
    slot.up <= TOLL_LIMIT && slot.down <= TOLL_LIMIT
}

impl<C> Slot<C> {
    // Refused by the first of the rules for bounds and tolls that the slot breaks.
    pub fn fits(&self) -> Result<(), Refusal>
        ensures { result ≡ told (slot_refusal self.now) tt }
    {
        if !bounds_hold(self) {
            return Err(Refusal::Bounds);
        }
        if !tolls_hold(self) {
            return Err(Refusal::Toll);
        }
        Ok(())
    }

    // Whether a level lies within the bounds.
    pub(crate) fn allows(&self, level: u16) -> bool
        ensures { result ≡ (nat_le self.now.low level && nat_le level self.now.high) }
    {
        self.low <= level && level <= self.high
    }
}
