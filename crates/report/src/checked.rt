// The plan of a day, checked.
ghost use Rattle.std.specs.Prelude.{◌≡◌, None};
ghost use Rattle.curve.specs.Answers.{Answers};
ghost use Rattle.optimum.specs.Coldest.{plan};
ghost use Rattle.optimum.specs.Plans.{price};
ghost use Rattle.planner.specs.Planning.{short_for};
ghost use Rattle.day.specs.View.{terms_of};

use curve::Curve;
use day::check::CheckedPlan;
use day::day::Day;
use slots::refusal::Refusal;

// Plans a day and checks the plan, which is never refused.
pub(crate) fn checked_plan<'l, C: Curve + Copy>(
    day: &Day<'_, C>,
    levels: &'l mut [u16],
    leans: &mut [i64],
    table: &mut [i64],
    marks: &mut [u16],
) -> Result<CheckedPlan<'l>, Refusal>
    ensures { Answers result (short_for day.now.count levels.old leans.old table.old marks.old) (λ p. (p.levels.now ≡ plan None (terms_of C.Curve.ground C.Curve.steps day.now)) × (p.cost ≡ price None (terms_of C.Curve.ground C.Curve.steps day.now) (plan None (terms_of C.Curve.ground C.Curve.steps day.now)))) }
{
    let count = day.slots().len();
    day.plan(levels, leans, table, marks)?;
    day.check(&levels[0..count], &leans[0..count])
}
