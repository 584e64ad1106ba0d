// A band curve: free between two edges, with a rate for each level outside of them.
ghost use Rattle.std.specs.Prelude.{◌≡◌, ℕ, ◌≤◌, IfOk};
ghost use Rattle.curve.specs.Answers.{Answers};
ghost use Rattle.curve.specs.Bands.{band_fault, band_cost, band_ground, band_step};
ghost use Rattle.curve.specs.Limits.{top, rate_limit};
ghost use Rattle.curve.specs.Meaning.{cost};
ghost use Rattle.std.proofs.Common.{arith};
ghost use Rattle.curve.specs.BandsLemmas.{band_rising, band_bounded, band_grounded};

use crate::Curve;
use crate::fault::CurveFault;
use crate::limits::{LAST_STEP, RATE_LIMIT, TOP};
use crate::scaling::times;

#[derive(Clone, Copy)]
pub struct Band {
    cold: u16,
    warm: u16,
    cold_rate: u32,
    warm_rate: u32,
    ghost apart: { cold ≤ warm },
    ghost inside: { warm ≤ top },
    ghost slow: { cold_rate ≤ rate_limit },
    ghost mild: { warm_rate ≤ rate_limit },
}

impl Band {
    pub fn new(cold: u16, warm: u16, cold_rate: u32, warm_rate: u32) -> Result<Band, CurveFault>
        ensures numbers { Answers result (band_fault cold warm cold_rate warm_rate) (λ b. (b.cold ≡ cold) × (b.warm ≡ warm) × (b.cold_rate ≡ cold_rate) × (b.warm_rate ≡ warm_rate)) }
        ensures costs { IfOk result (λ b. (v : ℕ) → cost (band_ground b.cold b.cold_rate) (band_step b.cold b.warm b.cold_rate b.warm_rate) v ≡ band_cost cold warm cold_rate warm_rate v) }
    {
        if cold > warm || warm > TOP {
            return Err(CurveFault::Edges);
        }
        if cold_rate > RATE_LIMIT || warm_rate > RATE_LIMIT {
            return Err(CurveFault::Rate);
        }
        Ok(Band {
            cold,
            warm,
            cold_rate,
            warm_rate,
        })
    }
}

impl Curve for Band {
    ghost ground = { λ b. band_ground b.cold b.cold_rate };

    ghost steps = { λ b. band_step b.cold b.warm b.cold_rate b.warm_rate };

    ghost rising = { λ b v within. band_rising b.cold b.warm b.cold_rate b.warm_rate v b.apart };

    ghost bounded = { λ b v within. band_bounded b.cold b.warm b.cold_rate b.warm_rate v b.slow b.mild };

    ghost grounded = { λ b. band_grounded b.cold b.cold_rate (omega arith) b.slow };

    fn ground(&self) -> i64 {
        times(self.cold_rate, self.cold as i64)
    }

    fn step(&self, level: u16) -> i64 {
        let level = level.min(LAST_STEP);
        if level < self.cold {
            -(self.cold_rate as i64)
        } else if level < self.warm {
            0
        } else {
            self.warm_rate as i64
        }
    }
}
