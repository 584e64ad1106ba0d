// What is said of a sheet.
use report::report::report_on;
use std::alloc::{AllocError, Global};
use std::process::Abort;
use std::test::Fail;

// Squares of weight 1 and target 10, 20 and 10, over all levels, with tolls of 4.
const SQUARES: &[u8] = b"\
    \x01\x00\x00\x03\xff\x00\x00\x00\x04\x00\x00\x00\x04\x00\x00\x00\x01\x00\x0a\
    \x01\x00\x00\x03\xff\x00\x00\x00\x04\x00\x00\x00\x04\x00\x00\x00\x01\x00\x14\
    \x01\x00\x00\x03\xff\x00\x00\x00\x04\x00\x00\x00\x04\x00\x00\x00\x01\x00\x0a";

// Holds what is said of a sheet to be the text of a plan, or of a refusal.
pub(crate) fn says(
    rt: &impl Abort,
    heap: Global,
    sheet: &[u8],
    expected: Result<&str, &str>,
) -> Result<(), Fail> {
    let said = report_on(heap, sheet)?;
    match &said {
        Ok(plan) => assert_eq!(rt; Ok(plan.as_str()), expected),
        Err(refusal) => assert_eq!(rt; Err(refusal.as_str()), expected),
    }
    Ok(())
}

pub(crate) fn is_refused(heap: Global, sheet: &[u8]) -> Result<bool, AllocError> {
    let said = report_on(heap, sheet)?;
    Ok(said.is_err())
}

#[test]
fn a_plan_is_told_slot_by_slot(rt: HostRuntime) -> Result<(), Fail> {
    let heap = rt.alloc();
    says(&rt, heap, &[], Ok("slots 0 cost 0\n"))?;
    let text = "slots 3 cost 56\n0 12 4 0\n1 16 16 16\n2 12 4 16\n";
    says(&rt, heap, SQUARES, Ok(text))
}
