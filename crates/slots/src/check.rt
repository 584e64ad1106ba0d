// Checking a plan, whoever made it, by leans.
ghost use Rattle.std.specs.Prelude.{◌≡◌, None};
ghost use Rattle.std.specs.List.{zip, AllByRecursion};
ghost use Rattle.optimum.specs.Leans.{stands};
ghost use Rattle.optimum.specs.Plans.{price};
ghost use Rattle.slots.specs.Judging.{earliest, inside, check_refusal};
ghost use Rattle.slots.specs.Refusals.{told};
ghost use Rattle.slots.specs.SlotTerms.{day_terms};
ghost use Rattle.slots.specs.Stands.{Rule, Tries, Triable};

use crate::list::Slots;
use crate::refusal::Refusal;
use crate::rules::Stand;
use curve::Curve;

impl<'a, C: Curve> Slots<'a, C> {
    // The earliest slot that breaks a rule, in a plan within the bounds, where the rule can be tried on each slot.
    fn first_break<F: Fn(&Stand<'_, C>) -> bool>(
        &self,
        levels: &[u16],
        leans: &[i64],
        keeps: F,
    ) -> Option<usize>
        requires within { earliest inside (zip (day_terms C.Curve.ground C.Curve.steps self.now.list.now) levels.now) ≡ None }
        requires callable { AllByRecursion (Triable C.Curve.ground C.Curve.steps F.Fn keeps) (stands None (day_terms C.Curve.ground C.Curve.steps self.now.list.now) levels.now leans.now) }
        ensures { (rule : Rule) → Tries C.Curve.ground C.Curve.steps F.Fn keeps rule → result ≡ earliest rule (stands None (day_terms C.Curve.ground C.Curve.steps self.now.list.now) levels.now leans.now) }
    {
        let mut before = None;
        for (i, ((slot, level), lean)) in self
            .list
            .iter()
            .zip(levels.iter())
            .zip(leans.iter())
            .enumerate()
        {
            let stand = Stand {
                slot,
                before,
                level: *level,
                lean: *lean,
                next: leans.get(i + 1).copied().unwrap_or(0),
            };
            if !keeps(&stand) {
                return Some(i);
            }
            before = Some(*level);
        }
        None
    }

    // The price of a plan that obeys the rules with some leans, or the first rule that is broken.
    pub fn check(&self, levels: &[u16], leans: &[i64]) -> Result<i64, Refusal>
        ensures { result ≡ told (check_refusal (day_terms C.Curve.ground C.Curve.steps self.now.list.now) levels.now leans.now) (price None (day_terms C.Curve.ground C.Curve.steps self.now.list.now) levels.now) }
    {
        if leans.len() != self.list.len() {
            return Err(Refusal::Count);
        }
        self.admits(levels)?;
        if let Some(slot) = self.first_break(levels, leans, |stand| stand.bounded()) {
            return Err(Refusal::Lean(slot));
        }
        if let Some(slot) = self.first_break(levels, leans, |stand| stand.follows_move()) {
            return Err(Refusal::Move(slot));
        }
        if let Some(slot) = self.first_break(levels, leans, |stand| stand.at_rest()) {
            return Err(Refusal::Rest(slot));
        }
        Ok(self.total(levels))
    }
}
