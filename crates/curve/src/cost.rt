// What a level costs on a curve of any kind.
ghost use Rattle.std.specs.Prelude.{◌≡◌, if◌then◌else◌, Some, None, nat_le};
ghost use Rattle.curve.specs.Limits.{top};
ghost use Rattle.curve.specs.Meaning.{cost};

use crate::Curve;
use crate::limits::TOP;

// The cost at a level; none above the warmest.
pub fn cost_at<C: Curve>(curve: &C, level: u16) -> Option<i64>
    ensures { result ≡ (if nat_le level top then Some (cost (C.Curve.ground curve.now) (C.Curve.steps curve.now) level) else None) }
{
    if level > TOP {
        return None;
    }
    let mut cost = curve.ground();
    for below in 0..level {
        cost += curve.step(below);
    }
    Some(cost)
}
