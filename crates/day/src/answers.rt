// What a plan costs in a day, and the plan that costs least.
ghost use Rattle.std.specs.Prelude.{◌≡◌, take, None, OnOk};
ghost use Rattle.optimum.specs.Coldest.{plan, Coldest};
ghost use Rattle.optimum.specs.Plans.{price};
ghost use Rattle.slots.specs.Judging.{price_refusal};
ghost use Rattle.slots.specs.Refusals.{told};
ghost use Rattle.planner.specs.Planning.{short_for, planned, Leaned, Spent};
ghost use Rattle.day.specs.View.{plain, terms_of};

use crate::day::Day;
use curve::Curve;
use planner::plan::plan_slots;
use slots::list::Slots;
use slots::refusal::Refusal;

impl<'a, C: Curve + Copy> Day<'a, C> {
    // The slots of the day, with what is known of them.
    pub(crate) fn listed<'s>(&'s self) -> Slots<'s, C>
        ensures { result.list.now ≡ (plain self.now).slots }
    {
        Slots { list: self.slots() }
    }

    // The price of a plan.
    pub fn price(&self, levels: &[u16]) -> Result<i64, Refusal>
        ensures { result ≡ told (price_refusal (terms_of C.Curve.ground C.Curve.steps self.now) levels.now) (price None (terms_of C.Curve.ground C.Curve.steps self.now) levels.now) }
    {
        self.listed().price(levels)
    }

    // Writes the levels of the cheapest plan that is coldest in every slot, and leans that obey the rules with it, and answers its cost.
    pub fn plan(
        &self,
        levels: &mut [u16],
        leans: &mut [i64],
        table: &mut [i64],
        marks: &mut [u16],
    ) -> Result<i64, Refusal>
        ensures answer { result ≡ told (short_for self.now.count levels.old leans.old table.old marks.old) (price None (terms_of C.Curve.ground C.Curve.steps self.now) (plan None (terms_of C.Curve.ground C.Curve.steps self.now))) }
        ensures levels { levels.new ≡ planned (short_for self.now.count levels.old leans.old table.old marks.old) (plan None (terms_of C.Curve.ground C.Curve.steps self.now)) levels.old }
        ensures coldest { OnOk result (Coldest None (terms_of C.Curve.ground C.Curve.steps self.now) (take self.now.count levels.new)) }
        ensures leans { Leaned (short_for self.now.count levels.old leans.old table.old marks.old) (terms_of C.Curve.ground C.Curve.steps self.now) leans.old leans.new }
        ensures table { Spent (short_for self.now.count levels.old leans.old table.old marks.old) table.old table.new }
        ensures marks { Spent (short_for self.now.count levels.old leans.old table.old marks.old) marks.old marks.new }
    {
        plan_slots(&self.listed(), levels, leans, table, marks)
    }
}
