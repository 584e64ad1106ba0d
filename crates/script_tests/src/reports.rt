// The line that tells each answer.
use replay::answer::{Answer, CallFault};
use script::report::describe;
use sheet::fault::{RecordFault, SheetFault};
use std::test::Fail;

#[test]
fn a_plan_is_told(rt: HostRuntime) -> Result<(), Fail> {
    let heap = rt.alloc();
    let answer = Answer::Planned {
        cost: -3,
        levels: [7u16, 0].to_vec(heap)?,
        leans: [0i64, -4].to_vec(heap)?,
    };
    let line = describe(heap, &Ok(answer))?;
    assert_eq!(rt; line.as_str(), "cost -3 levels 7 0 leans 0 -4");
    Ok(())
}

#[test]
fn a_refused_sheet_is_told(rt: HostRuntime) -> Result<(), Fail> {
    let heap = rt.alloc();
    let answer = Err(CallFault::Unread(SheetFault {
        fault: RecordFault::CutShort,
        slot: 2,
        place: 38,
    }));
    let line = describe(heap, &answer)?;
    assert_eq!(rt; line.as_str(), "refused 21 slot 2 byte 38");
    Ok(())
}
