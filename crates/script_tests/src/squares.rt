// Days of a kind of curve that no sheet writes are replayed as days of written curves are.
use curve::Curve;
use curve::fault::CurveFault;
use curve::limits::TOP;
use curve::square::Square;
use replay::call::{Buffers, Call};
use replay::replay::replay;
use script::report::describe;
use sheet::sheets::NoRecords;
use slots::slot::Slot;
use std::alloc::Global;
use std::process::Abort;
use std::test::Fail;

// A square of weight 1 over all levels, with tolls of 4.
fn square(target: u16) -> Result<Slot<Square>, CurveFault> {
    Ok(Slot {
        curve: Square::new(1, target)?,
        low: 0,
        high: TOP,
        up: 4,
        down: 4,
    })
}

// Holds a run of calls on three slots to the lines that tell their answers.
fn told<C: Curve + Copy>(
    rt: &impl Abort,
    heap: Global,
    memory: &mut [Slot<C>],
    slots: &[Slot<C>],
    expected: &[&str],
) -> Result<(), Fail> {
    let buffers = Buffers {
        levels: 3,
        leans: 3,
        table: 1023,
        marks: 6,
    };
    let mut calls = Vec::new(heap);
    for slot in slots {
        calls.push(Call::Add(*slot))?;
    }
    calls.push(Call::Plan(buffers))?;
    calls.push(Call::Sheet(&[1]))?;
    calls.push(Call::Price(&[10, 20, 10]))?;
    calls.push(Call::Check(&[12, 16, 12], &[0, 4, -4]))?;
    calls.push(Call::Check(&[12, 16, 13], &[0, 4, -4]))?;
    let moments = replay::<C, NoRecords>(heap, memory, &calls)?;
    assert_eq!(rt; moments.len(), expected.len());
    for (moment, line) in moments.iter().zip(expected) {
        let told = describe(heap, &moment.answer)?;
        assert_eq!(rt; told.as_str(), *line);
    }
    Ok(())
}

#[test]
fn days_of_squares_are_replayed(rt: HostRuntime) -> Result<(), Fail> {
    let slots = [square(10)?, square(20)?, square(10)?];
    let expected = [
        "ok",
        "ok",
        "ok",
        "cost 56 levels 12 16 12 leans 0 4 -4",
        "refused 20 slot 0 byte 0",
        "cost 80",
        "cost 56",
        "refused 19 slot 2",
    ];
    let mut memory = slots;
    told(&rt, rt.alloc(), &mut memory, &slots, &expected)
}
