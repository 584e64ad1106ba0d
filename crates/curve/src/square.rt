// A square curve: a weight times the square of the distance from a target.
ghost use Rattle.std.specs.Prelude.{◌≡◌, ℕ, ◌≤◌, IfOk};
ghost use Rattle.curve.specs.Answers.{Answers};
ghost use Rattle.curve.specs.Limits.{top, weight_limit};
ghost use Rattle.curve.specs.Meaning.{cost};
ghost use Rattle.curve.specs.Squares.{square_fault, square_cost, square_ground, square_step};
ghost use Rattle.curve.specs.SquaresLemmas.{square_rising, square_bounded, square_grounded};

use crate::Curve;
use crate::fault::CurveFault;
use crate::limits::{LAST_STEP, TOP, WEIGHT_LIMIT};
use crate::scaling::times;

#[derive(Clone, Copy)]
pub struct Square {
    weight: u32,
    target: u16,
    ghost weighs: { 1 ≤ weight },
    ghost light: { weight ≤ weight_limit },
    ghost aimed: { target ≤ top },
}

impl Square {
    pub fn new(weight: u32, target: u16) -> Result<Square, CurveFault>
        ensures numbers { Answers result (square_fault weight target) (λ s. (s.weight ≡ weight) × (s.target ≡ target)) }
        ensures costs { IfOk result (λ s. (v : ℕ) → cost (square_ground s.weight s.target) (square_step s.weight s.target) v ≡ square_cost weight target v) }
    {
        if weight < 1 || weight > WEIGHT_LIMIT {
            return Err(CurveFault::Weight);
        }
        if target > TOP {
            return Err(CurveFault::Target);
        }
        Ok(Square { weight, target })
    }
}

impl Curve for Square {
    ghost ground = { λ s. square_ground s.weight s.target };

    ghost steps = { λ s. square_step s.weight s.target };

    ghost rising = { λ s v within. square_rising s.weight s.target v };

    ghost bounded = { λ s v within. square_bounded s.weight s.target v s.light s.aimed within };

    ghost grounded = { λ s. square_grounded s.weight s.target s.light s.aimed };

    fn ground(&self) -> i64 {
        let target = self.target as u32;
        times(self.weight, (target * target) as i64)
    }

    fn step(&self, level: u16) -> i64 {
        let above = level.min(LAST_STEP) as i64 - self.target as i64;
        times(self.weight, 2 * above + 1)
    }
}
