// The sweep: a table of growths goes from the first slot to the last, and leaves two levels a slot.
ghost use Rattle.std.specs.Prelude.{◌≡◌, ℕ, ◌-◌, ◌<◌, ◌≤◌, true, ◌&&◌, ltb, [], ◌∷◌, length, get_or, ℤ, pos, ◌+ℤ◌, neg_ℤ, if◌then◌else◌, nat_le, nat_lt, slice_index_or};
ghost use Rattle.std.specs.Int.{int_max, int_min};
ghost use Rattle.curve.specs.Limits.{last_step};
ghost use Rattle.optimum.proofs.Marks.{Between, Small, Rising, marks as marks_of};
ghost use Rattle.optimum.proofs.Sweep.{joined, first_from, threshold};
ghost use Rattle.slots.specs.Limits.{toll_limit, table_length};
ghost use Rattle.slots.specs.SlotTerms.{slot_terms, day_terms};
ghost use Rattle.slots.specs.Slots.{proper};

use curve::Curve;
use slots::limits::TABLE_LENGTH;
use slots::list::Slots;
use slots::slot::Slot;

// The first of the levels from low to high at which the table, which does not fall there, is at least the bound, and high where there is none.
fn first_from(table: &[i64; TABLE_LENGTH], bound: i64, low: u16, high: u16) -> u16
    requires inside { (low ≤ high) × (high ≤ table_length) }
    requires rising { Rising low high table.now }
    ensures { result ≡ first_from (λ v. get_or table.now v (pos 0)) bound low (high - low) }
{
    let growths = &table[low as usize..high as usize];
    low + growths.partition_point(|growth| *growth < bound) as u16
}

// Adds the steps of a slot's curve to the table, between its bounds.
fn join<C: Curve>(slot: &Slot<C>, table: &mut [i64; TABLE_LENGTH])
    requires proper { proper slot.now ≡ true }
    requires small { Small toll_limit slot.now.low slot.now.high table.old }
    ensures { (v : ℕ) → v ≤ last_step → slice_index_or table.new v (pos 0) ≡ (if nat_le slot.now.low v && nat_lt v slot.now.high then slice_index_or table.old v (pos 0) +ℤ C.Curve.steps slot.now.curve v else slice_index_or table.old v (pos 0)) }
{
    for level in slot.low..slot.high {
        table[level as usize] += slot.curve.step(level);
    }
}

// The two levels of a slot under the tolls of the next, with its curve joined to the table.
fn sweep_slot<C: Curve>(
    slot: &Slot<C>,
    up: u32,
    down: u32,
    table: &mut [i64; TABLE_LENGTH],
) -> [u16; 2]
    requires proper { proper slot.now ≡ true }
    requires small { Small toll_limit slot.now.low slot.now.high table.old }
    requires rising { Rising slot.now.low slot.now.high table.old }
    ensures levels { (message : ℕ → ℤ) → Between slot.now.low slot.now.high table.old message → result ≡ threshold message (slot_terms C.Curve.ground C.Curve.steps slot.now) (neg_ℤ (pos down)) ∷ (threshold message (slot_terms C.Curve.ground C.Curve.steps slot.now) (pos up) ∷ []) }
    ensures after { (message : ℕ → ℤ) → Between slot.now.low slot.now.high table.old message → Between slot.now.low slot.now.high table.new (joined message (slot_terms C.Curve.ground C.Curve.steps slot.now)) }
{
    join(slot, table);
    let first = first_from(table, -(down as i64), slot.low, slot.high);
    let second = first_from(table, up as i64, slot.low, slot.high);
    [first, second]
}

// Holds the table between the tolls of the next slot, within its bounds: below those of the slot all the way down, above them all the way up.
fn pass_on<C>(slot: &Slot<C>, next: &Slot<C>, table: &mut [i64; TABLE_LENGTH])
    requires proper { proper next.now ≡ true }
    ensures { (v : ℕ) → next.now.low ≤ v → v < next.now.high → slice_index_or table.new v (pos 0) ≡ (if ltb v slot.now.low then neg_ℤ (pos next.now.down) else (if ltb v slot.now.high then int_max (neg_ℤ (pos next.now.down)) (int_min (slice_index_or table.old v (pos 0)) (pos next.now.up)) else pos next.now.up)) }
{
    let least = -(next.down as i64);
    let most = next.up as i64;
    for level in next.low..next.high {
        let place = level as usize;
        table[place] = if level < slot.low {
            least
        } else if level < slot.high {
            table[place].clamp(least, most)
        } else {
            most
        };
    }
}

// The two levels of every slot, from a table of zeros on.
pub(crate) fn sweep<C: Curve>(
    slots: &Slots<C>,
    table: &mut [i64; TABLE_LENGTH],
    marks: &mut [[u16; 2]],
)
    requires mark_each { length marks.old ≡ length slots.now.list.now }
    ensures { marks.new ≡ marks_of (λ _. pos 0) (day_terms C.Curve.ground C.Curve.steps slots.now.list.now) }
{
    table.fill(0);
    for (i, slot) in slots.list.iter().enumerate() {
        let next = slots.list.get(i + 1);
        let (up, down) = next.map_or((0, 0), |next| (next.up, next.down));
        marks[i] = sweep_slot(slot, up, down, table);
        if let Some(next) = next {
            pass_on(slot, next, table);
        }
    }
}
