// A pair of curves of any two kinds, which is a curve again: its ground and steps are the sums, held to the limits of the laws.
ghost use Rattle.std.specs.Prelude.{◌≡◌, ℕ, suc, ◌≤◌, min, ◌+ℤ◌, IfOk, if◌then◌else◌, Some, None, nat_le};
ghost use Rattle.curve.specs.Answers.{Answers};
ghost use Rattle.curve.specs.Limits.{last_step, top, step_limit};
ghost use Rattle.curve.specs.Meaning.{cost};
ghost use Rattle.curve.specs.Pairs.{pair_fault, pair_ground, pair_step, sums_fit};
ghost use Rattle.std.proofs.Common.{arith, rules};
ghost use Rattle.std.proofs.lemmas.Int.{ints};
ghost use Rattle.curve.specs.PairsLemmas.{hold_le};

use crate::Curve;
use crate::cost::cost_at;
use crate::fault::CurveFault;
use crate::limits::{GROUND_LIMIT, LAST_STEP, STEP_LIMIT, held_by};

#[derive(Clone, Copy)]
pub struct Pair<A, B> {
    first: A,
    second: B,
}

fn ground_sum<A: Curve, B: Curve>(first: &A, second: &B) -> i64
    ensures { result ≡ A.Curve.ground first.now +ℤ B.Curve.ground second.now }
{
    first.ground() + second.ground()
}

fn step_sum<A: Curve, B: Curve>(first: &A, second: &B, level: u16) -> i64
    ensures { result ≡ A.Curve.steps first.now (min level last_step) +ℤ B.Curve.steps second.now (min level last_step) }
{
    first.step(level) + second.step(level)
}

// Whether no sum needs holding. Since steps never fall, the first and the last of them decide.
fn sums_fit<A: Curve, B: Curve>(first: &A, second: &B) -> bool
    ensures { result ≡ sums_fit (A.Curve.ground first.now) (A.Curve.steps first.now) (B.Curve.ground second.now) (B.Curve.steps second.now) }
{
    held_by(GROUND_LIMIT, ground_sum(first, second))
        && step_sum(first, second, 0) >= -STEP_LIMIT
        && step_sum(first, second, LAST_STEP) <= STEP_LIMIT
}

impl<A: Curve + Copy, B: Curve + Copy> Pair<A, B> {
    pub fn new(first: A, second: B) -> Result<Pair<A, B>, CurveFault>
        ensures curves { Answers result (pair_fault (A.Curve.ground first) (A.Curve.steps first) (B.Curve.ground second) (B.Curve.steps second)) (λ p. (p.first ≡ first) × (p.second ≡ second)) }
        ensures exact_ground { IfOk result (λ p. pair_ground (A.Curve.ground first) (B.Curve.ground second) ≡ A.Curve.ground first +ℤ B.Curve.ground second) }
        ensures exact_steps { IfOk result (λ p. (v : ℕ) → v ≤ last_step → pair_step (A.Curve.steps first) (B.Curve.steps second) v ≡ A.Curve.steps first v +ℤ B.Curve.steps second v) }
    {
        if !sums_fit(&first, &second) {
            return Err(CurveFault::Sum);
        }
        Ok(Pair { first, second })
    }

    // What the pair costs at a level; none above the warmest.
    pub fn cost(&self, level: u16) -> Option<i64>
        ensures { result ≡ (if nat_le level top then Some (cost (pair_ground (A.Curve.ground self.now.first) (B.Curve.ground self.now.second)) (pair_step (A.Curve.steps self.now.first) (B.Curve.steps self.now.second)) level) else None) }
    {
        cost_at(self, level)
    }
}

impl<A: Curve, B: Curve> Curve for Pair<A, B> {
    ghost ground = { λ p. pair_ground (A.Curve.ground p.first) (B.Curve.ground p.second) };

    ghost steps = { λ p. pair_step (A.Curve.steps p.first) (B.Curve.steps p.second) };

    ghost rising = { λ p v within.
        let first = A.Curve.rising p.first v within in
        let second = B.Curve.rising p.second v within in
        hold_le step_limit (A.Curve.steps p.first v +ℤ B.Curve.steps p.second v) (A.Curve.steps p.first (suc v) +ℤ B.Curve.steps p.second (suc v)) (omega (arith, ints)) };

    ghost bounded = { Prim.search rules };

    ghost grounded = { Prim.search rules };

    fn ground(&self) -> i64 {
        ground_sum(&self.first, &self.second).clamp(-GROUND_LIMIT, GROUND_LIMIT)
    }

    fn step(&self, level: u16) -> i64 {
        step_sum(&self.first, &self.second, level).clamp(-STEP_LIMIT, STEP_LIMIT)
    }
}
