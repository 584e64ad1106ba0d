// The lines of a plan that is followed.
ghost use Rattle.std.specs.Prelude.{◌≤◌, None};
ghost use Rattle.std.specs.Fmt.{WritesOnOk};
ghost use Rattle.std.specs.List.{AllByRecursion};
ghost use Rattle.curve.specs.Limits.{top};
ghost use Rattle.slots.specs.SlotTerms.{slot_terms, day_terms};
ghost use Rattle.report.specs.Reports.{slot_line, slot_lines};

use curve::Curve;
use curve::cost::cost_at;
use day::check::CheckedPlan;
use slots::price::toll_into;
use slots::slot::Slot;
use std::fmt;

// Writes the line of a slot: its number, its level, its curve's cost there, and the toll paid for coming there.
fn put_line<W: fmt::Write, C: Curve>(
    f: &mut fmt::Formatter<W>,
    number: usize,
    slot: &Slot<C>,
    before: Option<u16>,
    level: u16,
) -> fmt::Result
    requires { level ≤ top }
    ensures { WritesOnOk W.write_str_gives f.old result (slot_line number (slot_terms C.Curve.ground C.Curve.steps slot.now) before level) f.new }
{
    let cost = cost_at(&slot.curve, level).unwrap();
    let toll = toll_into(slot, before, level);
    writeln!(f, "{number} {level} {cost} {toll}")
}

// Follows a checked plan, and writes a line for each slot.
pub(crate) fn put_lines<W: fmt::Write, C: Curve>(
    f: &mut fmt::Formatter<W>,
    slots: &[Slot<C>],
    plan: CheckedPlan<'_>,
) -> fmt::Result
    requires { AllByRecursion (λ x. x ≤ top) plan.levels.now }
    ensures { WritesOnOk W.write_str_gives f.old result (slot_lines 0 (day_terms C.Curve.ground C.Curve.steps slots.now) None plan.entry.levels.now) f.new }
{
    let mut following = plan.follow();
    let mut before = None;
    for (i, slot) in slots.iter().enumerate() {
        let Some(level) = following.next_level() else {
            break;
        };
        put_line(f, i, slot, before, level)?;
        before = Some(level);
    }
    Ok(())
}
