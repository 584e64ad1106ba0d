// A weight times a whole number.
ghost use Rattle.std.specs.Prelude.{◌≡◌, ◌^◌, pos, ◌*ℤ◌};
ghost use Rattle.curve.specs.Limits.{Within};

pub(crate) fn times(weight: u32, factor: i64) -> i64
    requires { Within (2 ^ 30) factor }
    ensures { result ≡ pos weight *ℤ factor }
{
    weight as i64 * factor
}
