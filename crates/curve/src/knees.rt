// A knees curve: a ground, a first step, and one to six knees, each a level and the step that holds from there on.
ghost use Rattle.std.specs.Prelude.{◌≡◌, ℕ, ◌≤◌, true, ◌&&◌, take, pos, IfOk};
ghost use Rattle.curve.specs.Answers.{Answers};
ghost use Rattle.curve.specs.KneeSteps.{rise_from, never_fall, knees_fault, knees_step, kept};
ghost use Rattle.curve.specs.Limits.{held_by, ground_limit, rate_limit, knee_limit};
ghost use Rattle.curve.specs.KneeStepsLemmas.{knees_rising, knees_bounded};
ghost use Rattle.std.proofs.Common.{rules, arith};

use crate::Curve;
use crate::fault::CurveFault;
use crate::knots::{keep, never_falls, rises, step_at};
use crate::limits::{GROUND_LIMIT, KNEE_LIMIT, KNEE_STEP_LIMIT, LAST_STEP, held_by};

#[derive(Clone, Copy)]
pub struct Knees {
    // The ground.
    base: i64,
    first: i32,
    count: usize,
    levels: [u16; 6],
    steps: [i32; 6],
    ghost some: { 1 ≤ count },
    ghost few: { count ≤ knee_limit },
    ghost rising: { rise_from 0 (take count levels) ≡ true },
    ghost fair: { (held_by rate_limit first && never_fall first (take count steps)) ≡ true },
    ghost grounded: { held_by ground_limit base ≡ true },
}

impl Knees {
    // Knees past the count are ignored and kept as zero.
    pub fn new(
        ground: i64,
        first: i32,
        count: usize,
        levels: [u16; 6],
        steps: [i32; 6],
    ) -> Result<Knees, CurveFault>
        ensures numbers { Answers result (knees_fault ground first count levels steps) (λ k. (k.base ≡ ground) × (k.first ≡ first) × (k.count ≡ count) × (k.levels ≡ kept count levels 0) × (k.steps ≡ kept count steps (pos 0))) }
        ensures meaning { IfOk result (λ k. (v : ℕ) → knees_step k.first k.count k.levels k.steps v ≡ knees_step first count levels steps v) }
    {
        if count < 1 || count > KNEE_LIMIT {
            return Err(CurveFault::KneeCount);
        }
        if !rises(&levels[..count]) {
            return Err(CurveFault::KneeLevels);
        }
        if !held_by(KNEE_STEP_LIMIT, first as i64) || !never_falls(first, &steps[..count]) {
            return Err(CurveFault::KneeSteps);
        }
        if !held_by(GROUND_LIMIT, ground) {
            return Err(CurveFault::Ground);
        }
        Ok(Knees {
            base: ground,
            first,
            count,
            levels: keep(levels, count, 0),
            steps: keep(steps, count, 0),
        })
    }
}

impl Curve for Knees {
    ghost ground = { λ k. k.base };

    ghost steps = { λ k. knees_step k.first k.count k.levels k.steps };

    ghost rising = { λ k v within. knees_rising k.first k.count k.levels k.steps v k.fair };

    ghost bounded = { λ k v within. knees_bounded k.first k.count k.levels k.steps v k.fair };

    ghost grounded = { first_of (Prim.search rules, Prim.grind (arith, Self.row.coded.inj)) };

    fn ground(&self) -> i64 {
        self.base
    }

    fn step(&self, level: u16) -> i64 {
        let level = level.min(LAST_STEP);
        step_at(
            level,
            self.first,
            &self.levels[..self.count],
            &self.steps[..self.count],
        ) as i64
    }
}
