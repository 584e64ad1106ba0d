// Checking a plan, whoever made it.
ghost use Rattle.std.specs.Prelude.{◌≡◌, None, OnOk};
ghost use Rattle.curve.specs.Answers.{Answers};
ghost use Rattle.optimum.specs.Plans.{price, Cheapest};
ghost use Rattle.slots.specs.Judging.{check_refusal};
ghost use Rattle.day.specs.View.{terms_of};

use crate::day::Day;
use curve::Curve;
use slots::refusal::Refusal;

// A plan that obeys the rules with some leans: its price, and the caller's own levels.
#[derive(Drop)]
pub struct CheckedPlan<'l> {
    pub(crate) levels: &'l [u16],
    pub(crate) cost: i64,
}

impl<'l> CheckedPlan<'l> {
    pub fn cost(&self) -> i64
        ensures { result ≡ self.now.cost }
    {
        self.cost
    }

    pub fn levels(&self) -> &'l [u16]
        ensures { result ≡ self.now.levels }
    {
        self.levels
    }
}

impl<'a, C: Curve + Copy> Day<'a, C> {
    // A plan and leans from any source: a checked plan, which no plan within the bounds beats, or the first rule that is broken.
    pub fn check<'l>(&self, levels: &'l [u16], leans: &[i64]) -> Result<CheckedPlan<'l>, Refusal>
        ensures answer { Answers result (check_refusal (terms_of C.Curve.ground C.Curve.steps self.now) levels.now leans.now) (λ p. (p.levels ≡ levels.entry) × (p.cost ≡ price None (terms_of C.Curve.ground C.Curve.steps self.now) levels.now)) }
        ensures cheapest { OnOk result (Cheapest None (terms_of C.Curve.ground C.Curve.steps self.now) levels.now) }
    {
        let cost = self.listed().check(levels, leans)?;
        Ok(CheckedPlan { levels, cost })
    }
}
