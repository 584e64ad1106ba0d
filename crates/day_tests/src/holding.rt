// How an answer is held to what was expected.
use crate::making::{all_are, day_of};
use curve::Curve;
use day::day::Day;
use slots::limits::{MOST_SLOTS, TABLE_LENGTH};
use slots::refusal::Refusal;
use slots::slot::Slot;
use std::process::Abort;
use std::test::Fail;

// Holds a refusal to its number and to the slot that it names.
pub(crate) fn refused<T: Drop>(
    rt: &impl Abort,
    answer: Result<T, Refusal>,
    number: u8,
    slot: Option<usize>,
) -> Result<(), Fail> {
    let refusal = answer.err().ok_or("it was not refused")?;
    assert_eq!(rt; refusal.number(), number);
    assert_eq!(rt; refusal.slot(), slot);
    Ok(())
}

// Holds the plan of a day to its levels and cost, its leans to the check, and places beyond the day to what they were.
pub(crate) fn plan_is<C: Curve + Copy>(
    rt: &impl Abort,
    day: &Day<'_, C>,
    expected: &[u16],
    cost: i64,
) -> Result<(), Fail> {
    let mut levels = [7u16; MOST_SLOTS];
    let mut leans = [-7i64; MOST_SLOTS];
    let mut table = [7i64; TABLE_LENGTH];
    let mut marks = [7u16; 384];
    assert_eq!(rt;
        day.plan(&mut levels, &mut leans, &mut table, &mut marks)?,
        cost
    );
    let count = expected.len();
    assert!(rt; count <= MOST_SLOTS);
    assert_eq!(rt; &levels[..count], expected);
    assert!(rt; all_are(&levels[count..], &7), "levels beyond the day");
    assert!(rt; all_are(&leans[count..], &-7), "leans beyond the day");
    let checked = day.check(&levels[..count], &leans[..count])?;
    assert_eq!(rt; checked.cost(), cost);
    assert_eq!(rt; checked.levels(), expected);
    Ok(())
}

// Holds the plan of a day of the given slots to its levels and cost.
pub(crate) fn slots_plan<C: Curve + Copy>(
    rt: &impl Abort,
    memory: &mut [Slot<C>],
    slots: &[Slot<C>],
    expected: &[u16],
    cost: i64,
) -> Result<(), Fail> {
    let day = day_of(memory, slots)?;
    plan_is(rt, &day, expected, cost)
}
