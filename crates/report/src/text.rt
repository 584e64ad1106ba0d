// A day's plan as text.
ghost use Rattle.std.specs.Prelude.{Some};
ghost use Rattle.day.specs.View.{terms_of};
ghost use Rattle.report.specs.Reports.{plan_text};

use crate::checked::checked_plan;
use crate::lines::put_lines;
use curve::Curve;
use day::day::Day;
use slots::limits::{MOST_SLOTS, TABLE_LENGTH};
use std::fmt;

// What is printed of a day: how many slots its plan has and what it costs, then a line for each slot.
#[derive(Clone, Copy)]
pub struct PlanText<'d, 'm, C> {
    pub day: &'d Day<'m, C>,
}

impl<C: Curve + Copy> fmt::Display for PlanText<'_, '_, C> {
    ghost output = { λ text. Some (plan_text (terms_of C.Curve.ground C.Curve.steps text.day.now)) };

    // Plans the day, and writes what following the checked plan hands out.
    fn fmt<W: fmt::Write>(&self, f: &mut fmt::Formatter<W>) -> fmt::Result {
        let mut levels = [0u16; MOST_SLOTS];
        let mut leans = [0i64; MOST_SLOTS];
        let mut table = [0i64; TABLE_LENGTH];
        let mut marks = [0u16; 2 * MOST_SLOTS];
        // The buffers are long enough for the largest day, so the plan is not refused.
        let plan = checked_plan(self.day, &mut levels, &mut leans, &mut table, &mut marks).unwrap();
        let count = self.day.slots().len();
        let cost = plan.cost();
        writeln!(f, "slots {count} cost {cost}")?;
        put_lines(f, self.day.slots(), plan)
    }
}
