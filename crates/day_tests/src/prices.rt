// What a plan costs.
use crate::holding::refused;
use crate::making::{day_of, slot, square, squares, wide};
use day::day::Day;
use std::test::Fail;

#[test]
fn curves_and_tolls_are_summed(rt: HostRuntime) -> Result<(), Fail> {
    let slots = squares(4);
    let mut memory = slots;
    let day = day_of(&mut memory, &slots)?;
    assert_eq!(rt; day.price(&[12, 16, 12])?, 56);
    assert_eq!(rt; day.price(&[10, 20, 10])?, 80);
    assert_eq!(rt; day.price(&[0, 0, 0])?, 600);
    assert_eq!(rt; day.price(&[1023, 1023, 1023])?, 2 * 1_026_169 + 1_006_009);
    Ok(())
}

// The toll is the one of the slot that is come into, and coming into the first slot is free.
#[test]
fn each_way_has_its_toll(rt: HostRuntime) -> Result<(), Fail> {
    let slots = [
        slot(square(1, 0), 0, 1023, 1_000, 2_000),
        slot(square(1, 0), 0, 1023, 30, 500),
        slot(square(1, 0), 0, 1023, 7, 11),
    ];
    let mut memory = slots;
    let day = day_of(&mut memory, &slots)?;
    assert_eq!(rt; day.price(&[1, 3, 1])?, 1 + 9 + 1 + 2 * 30 + 2 * 11);
    assert_eq!(rt; day.price(&[3, 1, 3])?, 9 + 1 + 9 + 2 * 500 + 2 * 7);
    Ok(())
}

#[test]
fn a_plan_has_a_level_for_each_slot(rt: HostRuntime) -> Result<(), Fail> {
    let slots = squares(4);
    let mut memory = slots;
    let day = day_of(&mut memory, &slots)?;
    refused(&rt, day.price(&[]), 15, None)?;
    refused(&rt, day.price(&[12, 16]), 15, None)?;
    refused(&rt, day.price(&[12, 16, 12, 12]), 15, None)?;
    refused(&rt, day.price(&[1024, 1024]), 15, None)
}

#[test]
fn the_earliest_slot_out_of_bounds_is_named(rt: HostRuntime) -> Result<(), Fail> {
    let slots = [
        slot(square(1, 10), 5, 9, 4, 4),
        slot(square(1, 10), 6, 6, 4, 4),
        slot(square(1, 10), 0, 1023, 4, 4),
    ];
    let mut memory = slots;
    let day = day_of(&mut memory, &slots)?;
    assert_eq!(rt; day.price(&[5, 6, 0])?, 25 + 16 + 100 + 4 + 24);
    assert_eq!(rt; day.price(&[9, 6, 10])?, 1 + 16 + 12 + 16);
    refused(&rt, day.price(&[4, 7, 1024]), 16, Some(0))?;
    refused(&rt, day.price(&[10, 6, 0]), 16, Some(0))?;
    refused(&rt, day.price(&[5, 5, 1024]), 16, Some(1))?;
    refused(&rt, day.price(&[5, 7, 0]), 16, Some(1))?;
    refused(&rt, day.price(&[5, 6, 1024]), 16, Some(2))?;
    refused(&rt, day.price(&[5, 6, 65_535]), 16, Some(2))
}

#[test]
fn an_empty_day_costs_nothing(rt: HostRuntime) -> Result<(), Fail> {
    let mut memory = [wide(square(1, 10), 4)];
    let day = Day::open(&mut memory);
    assert_eq!(rt; day.price(&[])?, 0);
    refused(&rt, day.price(&[0]), 15, None)
}
