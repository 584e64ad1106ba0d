// The plan of a day.
use crate::holding::{plan_is, refused, slots_plan};
use crate::making::{all_are, band, bands, day_of, slot, square, squares, wide};
use curve::fault::CurveFault;
use curve::limits::TOP;
use curve::pair::Pair;
use curve::written::Written;
use day::day::Day;
use slots::slot::Slot;
use std::test::Fail;

#[test]
fn a_plan_weighs_tolls_against_curves(rt: HostRuntime) -> Result<(), Fail> {
    let mut memory = squares(0);
    slots_plan(&rt, &mut memory, &squares(0), &[10, 20, 10], 0)?;
    slots_plan(&rt, &mut memory, &squares(4), &[12, 16, 12], 56)?;
    slots_plan(&rt, &mut memory, &squares(20), &[13, 13, 13], 67)?;
    let falling = [
        slot(square(1, 10), 0, 1023, 0, 6),
        slot(square(1, 0), 0, 1023, 0, 6),
    ];
    slots_plan(&rt, &mut memory, &falling, &[7, 3], 42)?;
    let still = [wide(square(1, 10), 100); 2];
    slots_plan(&rt, &mut memory, &still, &[10, 10], 0)
}

#[test]
fn the_coldest_of_the_cheapest_plans_is_answered(rt: HostRuntime) -> Result<(), Fail> {
    let mut memory = bands();
    slots_plan(&rt, &mut memory, &bands(), &[5, 5], 12)?;
    let flat = [wide(band(0, 1023, 3), 0); 2];
    slots_plan(&rt, &mut memory, &flat, &[0, 0], 0)
}

#[test]
fn a_plan_keeps_within_the_bounds(rt: HostRuntime) -> Result<(), Fail> {
    let mut memory = bands();
    let held = slot(square(1, 1000), 0, 300, 4, 4);
    slots_plan(&rt, &mut memory, &[held], &[300], 490_000)?;
    let fixed = slot(square(1, 1000), 300, 300, 4, 4);
    slots_plan(&rt, &mut memory, &[fixed], &[300], 490_000)?;
    let apart = [
        slot(square(1, 0), 0, 2, 5, 9),
        slot(square(1, 0), 10, 1023, 5, 9),
    ];
    slots_plan(&rt, &mut memory, &apart, &[2, 10], 4 + 100 + 40)
}

#[test]
fn short_buffers_are_refused_and_kept(rt: HostRuntime) -> Result<(), Fail> {
    let heap = rt.alloc();
    let mut memory = squares(4);
    let day = day_of(&mut memory, &squares(4))?;
    let lengths = [
        (2, 3, 1023, 6),
        (3, 2, 1023, 6),
        (3, 3, 1022, 6),
        (3, 3, 1023, 5),
        (0, 0, 0, 0),
    ];
    for (level_count, lean_count, table_length, mark_count) in lengths {
        let mut levels = vec![in heap; 7u16; level_count]?;
        let mut leans = vec![in heap; -7i64; lean_count]?;
        let mut table = vec![in heap; 5i64; table_length]?;
        let mut marks = vec![in heap; 9u16; mark_count]?;
        refused(
            &rt,
            day.plan(&mut levels, &mut leans, &mut table, &mut marks),
            14,
            None,
        )?;
        assert!(rt; levels.len() == level_count && all_are(&levels, &7));
        assert!(rt; leans.len() == lean_count && all_are(&leans, &-7));
        assert!(rt; table.len() == table_length && all_are(&table, &5));
        assert!(rt; marks.len() == mark_count && all_are(&marks, &9));
    }
    let (mut levels, mut leans) = ([7u16; 3], [-7i64; 3]);
    let cost = day.plan(&mut levels, &mut leans, &mut [5; 1023], &mut [9; 6])?;
    assert_eq!(rt; cost, 56);
    assert_eq!(rt; levels, [12, 16, 12]);
    Ok(())
}

#[test]
fn the_plan_of_an_empty_day_is_empty(rt: HostRuntime) -> Result<(), Fail> {
    let mut memory = squares(4);
    let day = Day::open(&mut memory);
    plan_is(&rt, &day, &[], 0)?;
    assert_eq!(rt; day.plan(&mut [], &mut [], &mut [5; 1023], &mut [])?, 0);
    refused(
        &rt,
        day.plan(&mut [], &mut [], &mut [5; 1022], &mut []),
        14,
        None,
    )
}

type Main = Pair<Pair<Written, Written>, Pair<Written, Written>>;

// Two squares of one target, a band with both edges 5, and knees: from 12 at level 0 down by 3 to level 4, even to level 6, then up by 5.
fn main_of_four(target: u16) -> Result<Main, CurveFault> {
    let knees = Written::Knees {
        ground: 12,
        first: -3,
        count: 2,
        levels: [4, 6, 0, 0, 0, 0],
        steps: [0, 5, 0, 0, 0, 0],
    };
    let squared = square(1, target);
    Pair::new(
        Pair::new(squared, band(5, 5, 3))?,
        Pair::new(knees, squared)?,
    )
}

fn main_slot(target: u16) -> Result<Slot<Main>, CurveFault> {
    Ok(Slot {
        curve: main_of_four(target)?,
        low: 0,
        high: TOP,
        up: 10,
        down: 10,
    })
}

// From level 6 on a step from v costs 4 v - 30 with target 10, and 4 v - 70 with target 20.
#[test]
fn pairs_of_pairs_are_planned(rt: HostRuntime) -> Result<(), Fail> {
    let slots = [main_slot(10)?, main_slot(20)?];
    let mut memory = slots;
    slots_plan(&rt, &mut memory, &slots[..1], &[8], 27)?;
    slots_plan(&rt, &mut memory, &slots[1..2], &[18], 107)?;
    slots_plan(&rt, &mut memory, &slots, &[10, 15], 210)
}

// Every other band pulls to level 0 and the rest to level 1,023, each by less than the toll: no plan that moves costs less than one that stays.
#[test]
fn the_largest_rates_and_tolls_are_planned(rt: HostRuntime) -> Result<(), Fail> {
    let cold = wide(band(0, 0, 900_000_000), 1_000_000_000);
    let warm = wide(band(1023, 1023, 900_000_000), 1_000_000_000);
    let mut memory = [cold; 192];
    let mut day = Day::open(&mut memory);
    for _ in 0..96u8 {
        day.add(cold)?;
        day.add(warm)?;
    }
    plan_is(&rt, &day, &[0; 192], 96 * 1023 * 900_000_000)
}

// The largest curves of every kind in turn, pulling to both ends.
fn largest(i: u16) -> Slot<Written> {
    let target = if i % 2 == 0 { 0 } else { 1023 };
    let curve = match i % 3 {
        0 => square(400_000, target),
        1 => band(target, target, 900_000_000),
        _ => Written::Knees {
            ground: if i % 2 == 0 {
                1_000_000_000_000
            } else {
                -1_000_000_000_000
            },
            first: -900_000_000,
            count: 6,
            levels: [1, 2, 3, 500, 1000, 1022],
            steps: [-900_000_000, -1, 0, 1, 899_999_999, 900_000_000],
        },
    };
    let free = if i % 5 == 0 { 0 } else { 1_000_000_000 };
    slot(curve, 0, 1023, 1_000_000_000, free)
}

#[test]
fn the_largest_mixed_day_passes_the_check(rt: HostRuntime) -> Result<(), Fail> {
    let mut memory = [largest(0); 192];
    let mut day = Day::open(&mut memory);
    for i in 0..192u16 {
        day.add(largest(i))?;
    }
    let (mut levels, mut leans) = ([0u16; 192], [0i64; 192]);
    let cost = day.plan(&mut levels, &mut leans, &mut [0; 1023], &mut [0; 384])?;
    assert_eq!(rt; day.price(&levels)?, cost);
    assert_eq!(rt; day.check(&levels, &leans)?.cost(), cost);
    assert!(rt; cost <= day.price(&[0; 192])?);
    assert!(rt; cost <= day.price(&[1023; 192])?);
    Ok(())
}
