// Checking plans by leans.
use crate::holding::refused;
use crate::making::{bands, day_of, slot, square, squares, wide};
use curve::written::Written;
use day::day::Day;
use std::process::Abort;
use std::test::Fail;

#[test]
fn any_cheapest_plan_with_leans_is_accepted(rt: HostRuntime) -> Result<(), Fail> {
    let mut memory = squares(4);
    let day = day_of(&mut memory, &bands())?;
    for level in 5..10u16 {
        assert_eq!(rt; day.check(&[level, level], &[0, 3])?.cost(), 12);
    }
    let levels = [5, 9];
    let checked = day.check(&levels, &[0, 3])?;
    assert_eq!(rt; checked.cost(), 12);
    assert_eq!(rt; checked.levels(), &levels[..]);
    let day = day_of(&mut memory, &squares(4))?;
    assert_eq!(rt; day.check(&[12, 16, 12], &[0, 4, -4])?.cost(), 56);
    Ok(())
}

#[test]
fn leans_beyond_the_tolls_are_refused(rt: HostRuntime) -> Result<(), Fail> {
    let mut memory = bands();
    let day = day_of(&mut memory, &bands())?;
    for lean in [1, -1, 3, i64::MAX, i64::MIN] {
        refused(&rt, day.check(&[9, 9], &[lean, 3]), 17, Some(0))?;
    }
    for lean in [4, -4, i64::MAX, i64::MIN] {
        refused(&rt, day.check(&[9, 9], &[0, lean]), 17, Some(1))?;
    }
    refused(&rt, day.check(&[9, 9], &[i64::MIN, i64::MAX]), 17, Some(0))
}

#[test]
fn a_move_asks_for_the_lean_of_its_toll(rt: HostRuntime) -> Result<(), Fail> {
    let one = slot(square(1, 10), 0, 1023, 3, 5);
    let mut memory = [one; 2];
    let day = day_of(&mut memory, &[one, one])?;
    for lean in [2, 0, -5] {
        refused(&rt, day.check(&[10, 11], &[0, lean]), 18, Some(1))?;
    }
    for lean in [-4, 0, 3] {
        refused(&rt, day.check(&[11, 10], &[0, lean]), 18, Some(1))?;
    }
    refused(&rt, day.check(&[10, 11], &[0, 3]), 19, Some(0))?;
    refused(&rt, day.check(&[11, 10], &[0, -5]), 19, Some(0))
}

#[test]
fn a_level_that_is_not_at_rest_is_refused(rt: HostRuntime) -> Result<(), Fail> {
    let mut memory = bands();
    let day = day_of(&mut memory, &bands())?;
    refused(&rt, day.check(&[4, 5], &[0, 3]), 19, Some(0))?;
    refused(&rt, day.check(&[10, 10], &[0, 3]), 19, Some(1))?;
    refused(&rt, day.check(&[9, 9], &[0, 0]), 19, Some(0))?;
    refused(&rt, day.check(&[5, 5], &[0, 2]), 19, Some(1))?;
    assert_eq!(rt; day.check(&[5, 5], &[0, 3])?.cost(), 12);
    Ok(())
}

#[test]
fn a_plan_has_a_level_and_a_lean_for_each_slot(rt: HostRuntime) -> Result<(), Fail> {
    let mut memory = bands();
    let day = day_of(&mut memory, &bands())?;
    refused(&rt, day.check(&[1024], &[9, 9]), 15, None)?;
    refused(&rt, day.check(&[1024, 5], &[9]), 15, None)?;
    refused(&rt, day.check(&[1024, 5], &[9, 9, 9]), 15, None)
}

fn broken(
    rt: &impl Abort,
    day: &Day<'_, Written>,
    levels: [u16; 3],
    leans: [i64; 3],
    number: u8,
    slot: usize,
) -> Result<(), Fail> {
    refused(rt, day.check(&levels, &leans), number, Some(slot))
}

// Each rule is tried on all slots before the next one is.
#[test]
fn rules_are_tried_in_their_order(rt: HostRuntime) -> Result<(), Fail> {
    let [first, second] = bands();
    let mut memory = [first, second, second];
    let day = day_of(&mut memory, &[first, second, second])?;
    broken(&rt, &day, [5, 5, 1024], [9, 9, 9], 16, 2)?;
    broken(&rt, &day, [5, 1024, 1024], [9, 9, 9], 16, 1)?;
    broken(&rt, &day, [5, 6, 6], [0, 2, 4], 17, 2)?;
    broken(&rt, &day, [0, 0, 0], [0, 4, 0], 17, 1)?;
    broken(&rt, &day, [0, 0, 1], [0, 0, 0], 18, 2)?;
    broken(&rt, &day, [4, 5, 6], [0, 2, 2], 18, 1)?;
    broken(&rt, &day, [0, 0, 0], [0, 0, 0], 19, 0)
}

#[test]
fn an_empty_day_checks_at_nothing(rt: HostRuntime) -> Result<(), Fail> {
    let mut memory = [wide(square(1, 10), 4)];
    let day = Day::open(&mut memory);
    let checked = day.check(&[], &[])?;
    assert_eq!(rt; checked.cost(), 0);
    assert_eq!(rt; checked.levels().len(), 0);
    refused(&rt, day.check(&[0], &[]), 15, None)?;
    refused(&rt, day.check(&[], &[0]), 15, None)
}
