// The tests on the knees of a curve, and what they answer.
ghost use Rattle.std.specs.Prelude.{◌≡◌, ◌≤◌, Bool, pos};
ghost use Rattle.curve.specs.KneeSteps.{each_follows, rise_from, never_fall, step_at, kept};
ghost use Rattle.curve.specs.Limits.{knee_limit};

use crate::limits::{KNEE_STEP_LIMIT, LAST_STEP, held_by};

// Whether each number may follow the one before it, from a first one on.
fn each_follows<T: Copy, F: Fn(T, T) -> bool>(first: T, numbers: &[T], follows: F) -> bool
    requires { F.IsAlwaysCallable follows }
    ensures { (rule : T → T → Bool) → ((before number : T) (r : Bool) → F.post follows before number r → r ≡ rule before number) → result ≡ each_follows rule first numbers.now }
{
    let mut before = first;
    for number in numbers {
        if !follows(before, *number) {
            return false;
        }
        before = *number;
    }
    true
}

pub(crate) fn rises(levels: &[u16]) -> bool
    ensures { result ≡ rise_from 0 levels.now }
{
    each_follows(
        0,
        levels,
        |before, level| before < level && level <= LAST_STEP,
    )
}

pub(crate) fn never_falls(first: i32, steps: &[i32]) -> bool
    ensures { result ≡ never_fall first steps.now }
{
    each_follows(
        first,
        steps,
        |before, step| before <= step && held_by(KNEE_STEP_LIMIT, step as i64),
    )
}

// The step that holds at a level.
pub(crate) fn step_at(level: u16, first: i32, levels: &[u16], steps: &[i32]) -> i32
    ensures { result ≡ step_at level first levels.now steps.now }
{
    let mut holds = first;
    for (knee, step) in levels.iter().zip(steps.iter()) {
        if *knee <= level {
            holds = *step;
        }
    }
    holds
}

// The first `count` numbers, and `nought` behind them.
pub(crate) fn keep<T: Copy>(numbers: [T; 6], count: usize, nought: T) -> [T; 6]
    requires { count ≤ knee_limit }
    ensures { result ≡ kept count numbers nought }
{
    let mut filled = [nought; 6];
    filled[..count].copy_from_slice(&numbers[..count]);
    filled
}
