// A written curve: one square, band or knees curve as plain numbers, as it lies in slot memory.
ghost use Rattle.std.specs.Prelude.{◌≡◌, None};
ghost use Rattle.curve.specs.Limits.{step_limit, ground_limit};
ghost use Rattle.curve.specs.WrittenCurves.{written_fault, written_ground, written_steps};
ghost use Rattle.curve.specs.WrittenSteps.{written_rising};
ghost use Rattle.std.proofs.Common.{arith};
ghost use Rattle.std.proofs.lemmas.Bool.Decides.{nat_tests};
ghost use Rattle.curve.specs.Squares.{square_fault};
ghost use Rattle.curve.specs.Bands.{band_fault};
ghost use Rattle.curve.specs.KneeSteps.{knees_fault, knees_rules};
ghost use Rattle.curve.specs.declared.written.Written.TheVariants.{Square, Band, Knees};
ghost use Rattle.curve.specs.SquaresLemmas.{square_bounded, square_grounded};
ghost use Rattle.curve.specs.KneeStepsLemmas.{knees_bounded};
ghost use Rattle.curve.specs.Tests.{all_pass, bounds_of_held};
ghost use Rattle.curve.specs.Unless.{unless_within};
ghost use Rattle.curve.specs.BandsLemmas.{band_bounded, band_grounded};

use crate::Curve;
use crate::band::Band;
use crate::fault::CurveFault;
use crate::knees::Knees;
use crate::square::Square;

#[derive(Clone, Copy, PartialEq, Eq, Debug)]
pub enum Written {
    Square {
        weight: u32,
        target: u16,
    },
    Band {
        cold: u16,
        warm: u16,
        cold_rate: u32,
        warm_rate: u32,
    },
    Knees {
        ground: i64,
        first: i32,
        count: u8,
        levels: [u16; 6],
        steps: [i32; 6],
    },
}

// What an expression says of the curve that written numbers make, of whichever kind it is, or of why they make none.
macro_rules! of_made {
    ($written:expr, $made:ident => $says:expr) => {
        match $written {
            Written::Square { weight, target } => {
                let $made = Square::new(weight, target);
                $says
            }
            Written::Band {
                cold,
                warm,
                cold_rate,
                warm_rate,
            } => {
                let $made = Band::new(cold, warm, cold_rate, warm_rate);
                $says
            }
            Written::Knees {
                ground,
                first,
                count,
                levels,
                steps,
            } => {
                let $made = Knees::new(ground, first, count as usize, levels, steps);
                $says
            }
        }
    };
}

impl Written {
    // Why no curve can be made from the numbers.
    pub fn fault(&self) -> Option<CurveFault>
        ensures { result ≡ written_fault self.now }
    {
        of_made!(*self, made => made.err())
    }
}

// A square of weight 1 about level 0: it fills memory that no day has written yet, and makes a curve.
impl Default for Written {
    ghost is_default = { λ w. (w ≡ Square 1 0) × (written_fault w ≡ None) };

    fn default() -> Written {
        Written::Square {
            weight: 1,
            target: 0,
        }
    }
}

impl Curve for Written {
    ghost ground = { written_ground };

    ghost steps = { written_steps };

    ghost rising = { λ c v within. written_rising c v };

    ghost bounded = { elim [
      | Square w a ↦ λ v within. unless_within step_limit (square_fault w a) _ (λ ok. square_bounded w a v (Prim.grind (arith, nat_tests)) (Prim.grind (arith, nat_tests)) within)
      | Band p q c d ↦ λ v within. unless_within step_limit (band_fault p q c d) _ (λ ok. band_bounded p q c d v (Prim.grind (arith, nat_tests)) (Prim.grind (arith, nat_tests)))
      | Knees g f n ls ss ↦ λ v within. unless_within step_limit (knees_fault g f n ls ss) _ (λ ok. knees_bounded f n ls ss v (all_pass (knees_rules g f n ls ss) ok).1.1.0)
    ] };

    ghost grounded = { elim [
      | Square w a ↦ unless_within ground_limit (square_fault w a) _ (λ ok. square_grounded w a (Prim.grind (arith, nat_tests)) (Prim.grind (arith, nat_tests)))
      | Band p q c d ↦ unless_within ground_limit (band_fault p q c d) _ (λ ok. band_grounded p c (Prim.grind (arith, nat_tests)) (Prim.grind (arith, nat_tests)))
      | Knees g f n ls ss ↦ unless_within ground_limit (knees_fault g f n ls ss) g (λ ok. bounds_of_held ground_limit g (all_pass (knees_rules g f n ls ss) ok).1.1.1.0)
    ] };

    fn ground(&self) -> i64 {
        of_made!(*self, made => made.map_or(0, |curve| curve.ground()))
    }

    fn step(&self, level: u16) -> i64 {
        of_made!(*self, made => made.map_or(0, |curve| curve.step(level)))
    }
}
