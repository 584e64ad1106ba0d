// What a cost curve is: a ground, which is its cost at level 0, and a step at each level, which is what one level more costs.
#![tactic(auto)]

pub mod band;
pub mod cost;
pub mod fault;
pub mod knees;
mod knots;
pub mod limits;
pub mod pair;
mod scaling;
pub mod square;
pub mod written;

ghost use Rattle.std.specs.Prelude.{◌≡◌, ℕ, suc, ◌<◌, ◌≤◌, min, ℤ, ◌≤ℤ◌};
ghost use Rattle.curve.specs.Limits.{Within, last_step, step_limit, ground_limit};

pub trait Curve {
    ghost ground: { Self → ℤ };

    ghost steps: { Self → ℕ → ℤ };

    fn ground(&self) -> i64
        ensures { result ≡ Self.ground self.now };

    // Above the last step the answer is the last step.
    fn step(&self, level: u16) -> i64
        ensures { result ≡ steps self.now (min level last_step) };

    ghost rising: { (c : Self) (v : ℕ) → v < last_step → steps c v ≤ℤ steps c (suc v) };

    ghost bounded: { (c : Self) (v : ℕ) → v ≤ last_step → Within step_limit (steps c v) };

    ghost grounded: { (c : Self) → Within ground_limit (Self.ground c) };
}
