// What a plan costs in a day.
ghost use Rattle.std.specs.Prelude.{◌≡◌, ◌*◌, ◌^◌, ◌≤◌, true, ◌&&◌, length, pos, ◌+ℤ◌, neg_ℤ, ◌≤ℤ◌, None, nat_le};
ghost use Rattle.std.specs.List.{zip};
ghost use Rattle.curve.specs.Limits.{top};
ghost use Rattle.curve.specs.Meaning.{cost};
ghost use Rattle.optimum.specs.Plans.{price, toll};
ghost use Rattle.slots.specs.Judging.{earliest, inside, price_refusal};
ghost use Rattle.slots.specs.Limits.{most_slots};
ghost use Rattle.slots.specs.SlotTerms.{slot_terms, day_terms};
ghost use Rattle.slots.specs.Refusals.{told};
ghost use Rattle.slots.specs.Slots.{all_proper};

use crate::list::Slots;
use crate::refusal::Refusal;
use crate::slot::Slot;
use curve::Curve;
use curve::cost::cost_at;

// The toll for so many levels.
fn toll_for(each: u32, levels: u16) -> i64
    ensures value { result ≡ pos (each * levels) }
    ensures size { result ≤ℤ pos (2 ^ 48) }
{
    i64::from(each) * i64::from(levels)
}

// The toll for coming into a slot at a level.
#[tactic(auto, unfolding(optimum::specs::Plans::toll))]
pub fn toll_into<C: Curve>(slot: &Slot<C>, before: Option<u16>, level: u16) -> i64
    ensures value { result ≡ toll (slot_terms C.Curve.ground C.Curve.steps slot.now) before level }
    ensures size { (pos 0 ≤ℤ result) × (result ≤ℤ pos (2 ^ 48)) }
{
    match before {
        None => 0,
        Some(before) if before < level => toll_for(slot.up, level - before),
        Some(before) => toll_for(slot.down, before - level),
    }
}

// What a slot adds to the price: its curve's cost at a level, and the toll for coming there.
fn slot_price<C: Curve>(slot: &Slot<C>, before: Option<u16>, level: u16) -> i64
    requires { level ≤ top }
    ensures value { result ≡ cost (C.Curve.ground slot.now.curve) (C.Curve.steps slot.now.curve) level +ℤ toll (slot_terms C.Curve.ground C.Curve.steps slot.now) before level }
    ensures size { (neg_ℤ (pos (2 ^ 49)) ≤ℤ result) × (result ≤ℤ pos (2 ^ 49)) }
{
    cost_at(&slot.curve, level).unwrap_or(0) + toll_into(slot, before, level)
}

impl<'a, C: Curve> Slots<'a, C> {
    // Refuses levels that are no plan: another number of them than of slots, or one that is out of bounds.
    pub(crate) fn admits(&self, levels: &[u16]) -> Result<(), Refusal>
        ensures { result ≡ told (price_refusal (day_terms C.Curve.ground C.Curve.steps self.now.list.now) levels.now) tt }
    {
        if levels.len() != self.list.len() {
            return Err(Refusal::Count);
        }
        for (i, (slot, level)) in self.list.iter().zip(levels.iter()).enumerate() {
            if !slot.allows(*level) {
                return Err(Refusal::Outside(i));
            }
        }
        Ok(())
    }

    // The curves' costs and the tolls of a plan within the bounds.
    pub(crate) fn total(&self, levels: &[u16]) -> i64
        requires within { earliest inside (zip (day_terms C.Curve.ground C.Curve.steps self.now.list.now) levels.now) ≡ None }
        ensures { result ≡ price None (day_terms C.Curve.ground C.Curve.steps self.now.list.now) levels.now }
    {
        let mut total = 0;
        let mut before = None;
        for (slot, level) in self.list.iter().zip(levels.iter()) {
            total += slot_price(slot, before, *level);
            before = Some(*level);
        }
        total
    }

    // The price of a plan.
    pub fn price(&self, levels: &[u16]) -> Result<i64, Refusal>
        ensures { result ≡ told (price_refusal (day_terms C.Curve.ground C.Curve.steps self.now.list.now) levels.now) (price None (day_terms C.Curve.ground C.Curve.steps self.now.list.now) levels.now) }
    {
        self.admits(levels)?;
        Ok(self.total(levels))
    }
}
