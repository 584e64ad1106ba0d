// Opening a day, and its edits.
use crate::holding::refused;
use crate::making::{band, day_of, slot, square, squares, wide};
use curve::written::Written;
use day::day::Day;
use slots::slot::Slot;
use std::process::Abort;
use std::test::Fail;

#[test]
fn a_day_holds_192_slots(rt: HostRuntime) -> Result<(), Fail> {
    let one = wide(square(1, 10), 4);
    let mut memory = [one; 200];
    let mut day = day_of(&mut memory, &[one; 192])?;
    assert_eq!(rt; day.slots().len(), 192);
    refused(&rt, day.add(one), 12, None)?;
    assert_eq!(rt; day.slots().len(), 192);
    Ok(())
}

#[test]
fn a_day_holds_as_many_slots_as_its_memory(rt: HostRuntime) -> Result<(), Fail> {
    let one = wide(square(1, 10), 4);
    let mut memory = [one; 3];
    let mut day = Day::open(&mut memory);
    assert_eq!(rt; day.slots().len(), 0);
    for count in 1..4usize {
        day.add(one)?;
        assert_eq!(rt; day.slots().len(), count);
    }
    refused(&rt, day.add(one), 12, None)?;
    assert_eq!(rt; day.slots().len(), 3);
    Ok(())
}

#[test]
fn the_widest_numbers_are_accepted(rt: HostRuntime) -> Result<(), Fail> {
    let curve = square(1, 10);
    let accepted = [
        slot(curve, 0, 0, 0, 0),
        slot(curve, 300, 300, 4, 4),
        slot(curve, 1023, 1023, 0, 1_000_000_000),
        slot(curve, 0, 1023, 1_000_000_000, 0),
    ];
    let mut memory = [wide(curve, 4); 4];
    let mut day = day_of(&mut memory, &accepted)?;
    assert_eq!(rt; day.slots(), accepted.as_slice());
    for one in &accepted {
        day.replace(1, *one)?;
        assert_eq!(rt; day.slots().len(), 4);
    }
    Ok(())
}

// Holds a slot to be refused as an addition while there is room, as a replacement, and as an addition to a full day, and the memory to stay.
fn is_refused(rt: &impl Abort, one: Slot<Written>, number: u8) -> Result<(), Fail> {
    let [first, second, third] = squares(4);
    let mut memory = [first, second, third];
    {
        let mut day = day_of(&mut memory, &[first, second])?;
        refused(rt, day.add(one), number, None)?;
        refused(rt, day.replace(1, one), number, None)?;
        assert_eq!(rt; day.slots(), [first, second].as_slice());
        day.add(third)?;
        refused(rt, day.add(one), number, None)?;
        assert_eq!(rt; day.slots(), [first, second, third].as_slice());
    }
    assert_eq!(rt; memory, [first, second, third]);
    Ok(())
}

#[test]
fn bounds_are_tried_before_tolls_and_tolls_before_room(rt: HostRuntime) -> Result<(), Fail> {
    let curve = band(0, 9, 3);
    let over = 1_000_000_001;
    is_refused(&rt, slot(curve, 9, 8, 4, 4), 10)?;
    is_refused(&rt, slot(curve, 0, 1024, 4, 4), 10)?;
    is_refused(&rt, slot(curve, 1024, 1024, 4, 4), 10)?;
    is_refused(&rt, slot(curve, 9, 8, over, over), 10)?;
    is_refused(&rt, slot(curve, 0, 8, over, 4), 11)?;
    is_refused(&rt, slot(curve, 0, 8, 4, over), 11)
}

#[test]
fn a_slot_that_is_not_there_is_refused_first(rt: HostRuntime) -> Result<(), Fail> {
    let [first, second, third] = squares(4);
    let good = slot(square(2, 30), 1, 9, 5, 6);
    let mut memory = [first, second, third];
    {
        let mut day = day_of(&mut memory, &[first, second])?;
        refused(&rt, day.replace(2, good), 13, None)?;
        refused(&rt, day.replace(usize::MAX, good), 13, None)?;
        refused(
            &rt,
            day.replace(2, slot(square(1, 10), 9, 8, 4, 4)),
            13,
            None,
        )?;
        refused(&rt, day.replace(2, wide(square(1, 10), u32::MAX)), 13, None)?;
        assert_eq!(rt; day.slots(), [first, second].as_slice());
    }
    {
        let mut empty = Day::open(&mut memory);
        refused(&rt, empty.drop(), 13, None)?;
        refused(&rt, empty.replace(0, good), 13, None)?;
        assert_eq!(rt; empty.slots().len(), 0);
    }
    assert_eq!(rt; memory, [first, second, third]);
    Ok(())
}

#[test]
fn an_edit_writes_one_slot(rt: HostRuntime) -> Result<(), Fail> {
    let new = slot(square(2, 30), 1, 9, 5, 6);
    let [first, second, third] = squares(4);
    let mut memory = [first, second, third, first];
    {
        let mut day = day_of(&mut memory, &[first, second])?;
        day.replace(0, new)?;
        assert_eq!(rt; day.slots(), [new, second].as_slice());
        day.add(new)?;
        assert_eq!(rt; day.slots(), [new, second, new].as_slice());
    }
    assert_eq!(rt; memory, [new, second, new, first]);
    Ok(())
}

#[test]
fn a_drop_leaves_the_memory(rt: HostRuntime) -> Result<(), Fail> {
    let new = slot(square(2, 30), 1, 9, 5, 6);
    let [first, second, third] = squares(4);
    let mut memory = [third, third, third, third];
    {
        let mut day = day_of(&mut memory, &[first, second, new])?;
        day.drop()?;
        assert_eq!(rt; day.slots(), [first, second].as_slice());
        day.drop()?;
        assert_eq!(rt; day.slots(), [first].as_slice());
        day.drop()?;
        assert_eq!(rt; day.slots().len(), 0);
        refused(&rt, day.drop(), 13, None)?;
    }
    assert_eq!(rt; memory, [first, second, new, third]);
    Ok(())
}
