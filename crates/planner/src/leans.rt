// Leans for a plan, by one pass forward and one back.
ghost use Rattle.std.specs.Prelude.{◌≡◌, ◌*◌, ◌≤◌, true, length};
ghost use Rattle.std.specs.List.{AllByRecursion};
ghost use Rattle.optimum.proofs.LeanPasses.{forward_lean, backward_lean, forward, backward};
ghost use Rattle.optimum.proofs.LeanSizes.{Sized};
ghost use Rattle.optimum.specs.Plans.{Within};
ghost use Rattle.slots.specs.Limits.{most_slots, toll_limit};
ghost use Rattle.slots.specs.SlotTerms.{slot_terms, day_terms};
ghost use Rattle.slots.specs.Slots.{proper};

use curve::Curve;
use slots::list::Slots;
use slots::slot::Slot;

// The least lean of a slot as far as the slots before it are concerned.
fn forward_lean<C: Curve>(before: &Slot<C>, from: u16, lean: i64, slot: &Slot<C>, level: u16) -> i64
    requires proper { (proper before.now ≡ true) × (proper slot.now ≡ true) × (from ≤ before.now.high) }
    requires small { Sized (most_slots * toll_limit) lean }
    ensures { result ≡ forward_lean (slot_terms C.Curve.ground C.Curve.steps before.now) from lean (slot_terms C.Curve.ground C.Curve.steps slot.now) level }
{
    let least = -(slot.down as i64);
    if from < level {
        slot.up as i64
    } else if level < from {
        least
    } else if before.low < level {
        least.max(lean + before.curve.step(level - 1))
    } else {
        least
    }
}

pub(crate) fn lean_forward<C: Curve>(slots: &Slots<C>, levels: &[u16], leans: &mut [i64])
    requires within { Within (day_terms C.Curve.ground C.Curve.steps slots.now.list.now) levels.now }
    requires lean_each { length leans.old ≡ length slots.now.list.now }
    ensures { leans.new ≡ forward (day_terms C.Curve.ground C.Curve.steps slots.now.list.now) levels.now }
{
    let mut before = None;
    for (i, (slot, level)) in slots.list.iter().zip(levels.iter()).enumerate() {
        let lean = match before {
            None => 0,
            Some((before, from, lean)) => forward_lean(before, from, lean, slot, *level),
        };
        leans[i] = lean;
        before = Some((slot, *level, lean));
    }
}

// The least lean of a slot that the lean after it allows too.
fn backward_lean<C: Curve>(slot: &Slot<C>, level: u16, lean: i64, next: i64) -> i64
    requires proper { proper slot.now ≡ true }
    requires small { Sized (2 * (most_slots * toll_limit)) lean × Sized (2 * (most_slots * toll_limit)) next }
    ensures { result ≡ backward_lean (slot_terms C.Curve.ground C.Curve.steps slot.now) level lean next }
{
    if level < slot.high {
        lean.max(next - slot.curve.step(level))
    } else {
        lean
    }
}

pub(crate) fn lean_backward<C: Curve>(slots: &Slots<C>, levels: &[u16], leans: &mut [i64])
    requires level_each { length levels.now ≡ length slots.now.list.now }
    requires lean_each { length leans.old ≡ length slots.now.list.now }
    requires small { AllByRecursion (Sized (most_slots * toll_limit)) leans.old }
    ensures { leans.new ≡ backward (day_terms C.Curve.ground C.Curve.steps slots.now.list.now) levels.now leans.old }
{
    let mut next = 0;
    for (i, (slot, level)) in slots.list.iter().zip(levels.iter()).enumerate().rev() {
        next = backward_lean(slot, *level, leans[i], next);
        leans[i] = next;
    }
}
