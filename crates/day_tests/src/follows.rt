// Following a checked plan.
use crate::making::{day_of, squares};
use day::day::Day;
use std::test::Fail;

#[test]
fn levels_are_handed_out_once_each(rt: HostRuntime) -> Result<(), Fail> {
    let slots = squares(4);
    let mut memory = slots;
    let day = day_of(&mut memory, &slots)?;
    let mut following = day.check(&[12, 16, 12], &[0, 4, -4])?.follow();
    for expected in [Some(12), Some(16), Some(12), None, None] {
        assert_eq!(rt; following.next_level(), expected);
    }
    assert_eq!(rt; following.end(), 0);
    Ok(())
}

#[test]
fn the_end_counts_what_was_not_handed_out(rt: HostRuntime) -> Result<(), Fail> {
    let slots = squares(4);
    let mut memory = slots;
    let day = day_of(&mut memory, &slots)?;
    for (asked, left) in [(0u8, 3usize), (1, 2), (2, 1), (3, 0), (4, 0), (9, 0)] {
        let mut following = day.check(&[12, 16, 12], &[0, 4, -4])?.follow();
        for _ in 0..asked {
            let _ = following.next_level();
        }
        assert_eq!(rt; following.end(), left);
    }
    Ok(())
}

#[test]
fn an_empty_plan_has_no_levels(rt: HostRuntime) -> Result<(), Fail> {
    let mut memory = squares(4);
    let day = Day::open(&mut memory);
    let mut following = day.check(&[], &[])?.follow();
    assert_eq!(rt; following.next_level(), None);
    assert_eq!(rt; following.next_level(), None);
    assert_eq!(rt; following.end(), 0);
    Ok(())
}
