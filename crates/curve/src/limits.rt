// Each number of the rules for curves, once.
ghost use Rattle.std.specs.Prelude.{◌≡◌, ◌&&◌, pos, neg_ℤ, ◌≤ℤ◌, int_le};

// The warmest level.
pub const TOP: u16 = 1023;

// The level of the last step: the one from it to the warmest level.
pub const LAST_STEP: u16 = 1022;

// A step lies from minus this to this.
pub const STEP_LIMIT: i64 = 1_000_000_000;

// A ground lies from minus this to this.
pub const GROUND_LIMIT: i64 = 1_000_000_000_000;

// The largest weight of a square curve.
pub const WEIGHT_LIMIT: u32 = 400_000;

// The largest rate of a band curve.
pub const RATE_LIMIT: u32 = 900_000_000;

// The largest step of a knees curve in size.
pub const KNEE_STEP_LIMIT: i64 = 900_000_000;

// The most knees of a knees curve.
pub const KNEE_LIMIT: usize = 6;

// Whether a number lies from minus a limit to that limit.
pub(crate) fn held_by(limit: i64, number: i64) -> bool
    requires { pos 0 ≤ℤ limit }
    ensures { result ≡ (int_le (neg_ℤ limit) number && int_le number limit) }
{
    number >= -limit && number <= limit
}
