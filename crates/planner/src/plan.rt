// The plan of a day: of the cheapest plans, the coldest.
ghost use Rattle.std.specs.Prelude.{◌≡◌, length, None, Ok};
ghost use Rattle.optimum.specs.Coldest.{plan};
ghost use Rattle.optimum.specs.Leans.{Obeys};
ghost use Rattle.optimum.specs.Plans.{price};
ghost use Rattle.slots.specs.SlotTerms.{day_terms};
ghost use Rattle.planner.specs.Planning.{short_for, planned, Leaned, Spent};
ghost use Rattle.slots.specs.Refusals.{told};

use crate::leans::{lean_backward, lean_forward};
use crate::sweep::sweep;
use crate::walk::walk_back;
use curve::Curve;
use slots::limits::TABLE_LENGTH;
use slots::list::Slots;
use slots::refusal::Refusal;

// The plan of slots, where each buffer is as long as the day.
fn plan_with_room<C: Curve>(
    slots: &Slots<C>,
    levels: &mut [u16],
    leans: &mut [i64],
    table: &mut [i64; TABLE_LENGTH],
    marks: &mut [[u16; 2]],
) -> Result<i64, Refusal>
    requires level_each { length levels.old ≡ length slots.now.list.now }
    requires lean_each { length leans.old ≡ length slots.now.list.now }
    requires mark_each { length marks.old ≡ length slots.now.list.now }
    ensures cost { result ≡ Ok (price None (day_terms C.Curve.ground C.Curve.steps slots.now.list.now) (plan None (day_terms C.Curve.ground C.Curve.steps slots.now.list.now))) }
    ensures levels { levels.new ≡ plan None (day_terms C.Curve.ground C.Curve.steps slots.now.list.now) }
    ensures obeys { Obeys None (day_terms C.Curve.ground C.Curve.steps slots.now.list.now) (plan None (day_terms C.Curve.ground C.Curve.steps slots.now.list.now)) leans.new }
{
    sweep(slots, table, marks);
    walk_back(marks, levels);
    lean_forward(slots, levels, leans);
    lean_backward(slots, levels, leans);
    slots.price(levels)
}

// Writes the levels of the cheapest plan that is coldest in every slot, and leans that obey the rules with it, and answers its cost.
pub fn plan_slots<C: Curve>(
    slots: &Slots<C>,
    levels: &mut [u16],
    leans: &mut [i64],
    table: &mut [i64],
    marks: &mut [u16],
) -> Result<i64, Refusal>
    ensures answer { result ≡ told (short_for (length slots.now.list.now) levels.old leans.old table.old marks.old) (price None (day_terms C.Curve.ground C.Curve.steps slots.now.list.now) (plan None (day_terms C.Curve.ground C.Curve.steps slots.now.list.now))) }
    ensures levels { levels.new ≡ planned (short_for (length slots.now.list.now) levels.old leans.old table.old marks.old) (plan None (day_terms C.Curve.ground C.Curve.steps slots.now.list.now)) levels.old }
    ensures leans { Leaned (short_for (length slots.now.list.now) levels.old leans.old table.old marks.old) (day_terms C.Curve.ground C.Curve.steps slots.now.list.now) leans.old leans.new }
    ensures table { Spent (short_for (length slots.now.list.now) levels.old leans.old table.old marks.old) table.old table.new }
    ensures marks { Spent (short_for (length slots.now.list.now) levels.old leans.old table.old marks.old) marks.old marks.new }
{
    let count = slots.list.len();
    if levels.len() < count || leans.len() < count || marks.len() < 2 * count {
        return Err(Refusal::Short);
    }
    let Some(table) = table.first_chunk_mut() else {
        return Err(Refusal::Short);
    };
    let (marks, _) = marks.as_chunks_mut::<2>();
    let levels = &mut levels[..count];
    let leans = &mut leans[..count];
    let marks = &mut marks[..count];
    plan_with_room(slots, levels, leans, table, marks)
}
