// Every refusal of a sheet, by what is said of it.
use crate::making::{KINDS, kinds, knees, sheet_of, wide};
use crate::reports::says;
use curve::limits::TOP;
use curve::written::Written;
use report::report::report_on;
use slots::slot::Slot;
use std::alloc::{AllocError, Global};
use std::process::Abort;
use std::test::Fail;

// The least toll that is refused.
const TOLL: u32 = 1_000_000_001;

// The least rate that is refused.
const RATE: u32 = 900_000_001;

fn refused_behind(
    rt: &impl Abort,
    heap: Global,
    good: &[Slot<Written>],
    record: &[u8],
    number: u8,
) -> Result<(), Fail> {
    let mut sheet = sheet_of(heap, good)?;
    let slot = good.len();
    let place = sheet.len();
    sheet.extend_from_slice(record)?;
    let text = format!(in heap; "refused {number} slot {slot} byte {place}\n")?;
    says(rt, heap, &sheet, Err(text.as_str()))
}

// Holds a record to be refused behind none, one and two good ones.
fn refused(rt: &impl Abort, heap: Global, record: &[u8], number: u8) -> Result<(), Fail> {
    let good = kinds();
    for slot in 0..3usize {
        refused_behind(rt, heap, &good[0..slot], record, number)?;
    }
    Ok(())
}

fn slot_refused(rt: &impl Abort, heap: Global, one: Slot<Written>, number: u8) -> Result<(), Fail> {
    let record = sheet_of(heap, &[one])?;
    refused(rt, heap, &record, number)
}

// Holds a record that is cut to a length to be refused for that, whatever else is wrong with it.
fn cut_refused(rt: &impl Abort, heap: Global, kind: u8, length: usize) -> Result<(), Fail> {
    let mut record = [0xff; 61];
    record[0] = kind;
    assert!(rt; length <= 61);
    refused(rt, heap, &record[0..length], 21)
}

#[test]
fn kinds_and_lengths_are_refused(rt: HostRuntime) -> Result<(), Fail> {
    let heap = rt.alloc();
    for kind in [0, 4, 255] {
        refused(&rt, heap, &[kind], 20)?;
        refused(&rt, heap, &[kind; 63], 20)?;
    }
    for (kind, length) in [(1, 1), (1, 18), (2, 1), (2, 24), (3, 1), (3, 61)] {
        cut_refused(&rt, heap, kind, length)?;
    }
    Ok(())
}

// Holds a curve to be refused, with good bounds and tolls and with bad ones.
fn curve_refused(rt: &impl Abort, heap: Global, curve: Written, number: u8) -> Result<(), Fail> {
    slot_refused(rt, heap, wide(curve), number)?;
    slot_refused(
        rt,
        heap,
        Slot {
            curve,
            low: 9,
            high: 8,
            up: TOLL,
            down: TOLL,
        },
        number,
    )
}

#[test]
fn squares_are_refused(rt: HostRuntime) -> Result<(), Fail> {
    let heap = rt.alloc();
    for (weight, target, number) in [
        (0, 10, 1),
        (400_001, 10, 1),
        (0, 1024, 1),
        (1, 1024, 2),
        (1, 0xffff, 2),
    ] {
        curve_refused(&rt, heap, Written::Square { weight, target }, number)?;
    }
    Ok(())
}

#[test]
fn bands_are_refused(rt: HostRuntime) -> Result<(), Fail> {
    let heap = rt.alloc();
    for (cold, warm, cold_rate, warm_rate, number) in [
        (5, 4, 0, 0, 3),
        (5, 1024, 0, 0, 3),
        (5, 4, RATE, RATE, 3),
        (4, 5, RATE, 0, 4),
        (4, 5, 0, RATE, 4),
    ] {
        let band = Written::Band {
            cold,
            warm,
            cold_rate,
            warm_rate,
        };
        curve_refused(&rt, heap, band, number)?;
    }
    Ok(())
}

#[test]
fn knees_are_refused(rt: HostRuntime) -> Result<(), Fail> {
    let heap = rt.alloc();
    let far = 1_000_000_000_001;
    for (ground, first, count, levels, steps, number) in [
        (0, 0, 0, [4, 5], [0, 0], 5),
        (0, 0, 7, [4, 5], [0, 0], 5),
        (far, 9, 255, [5, 4], [0, 0], 5),
        (0, 0, 1, [4, 5], [0, 0], 22),
        (0, 0, 1, [4, 0], [0, -1], 22),
        (far, 9, 1, [0, 5], [0, 0], 22),
        (0, 0, 1, [0, 0], [0, 0], 6),
        (0, 0, 3, [4, 5], [0, 0], 6),
        (0, 0, 2, [4, 1023], [0, 0], 6),
        (far, 9, 2, [5, 4], [0, 0], 6),
        (0, -900_000_001, 2, [4, 5], [0, 0], 7),
        (0, 0, 2, [4, 5], [0, 900_000_001], 7),
        (far, 9, 2, [4, 5], [8, 9], 7),
        (far, 0, 2, [4, 5], [0, 0], 8),
        (-far, 0, 2, [4, 5], [0, 0], 8),
    ] {
        curve_refused(
            &rt,
            heap,
            knees(ground, first, count, levels, steps),
            number,
        )?;
    }
    Ok(())
}

#[test]
fn bounds_and_tolls_are_refused(rt: HostRuntime) -> Result<(), Fail> {
    let heap = rt.alloc();
    for one in kinds() {
        for (low, high, up, down, number) in [
            (9, 8, 4, 4, 10),
            (0, 1024, 4, 4, 10),
            (1024, 1024, 4, 4, 10),
            (9, 8, TOLL, TOLL, 10),
            (0, TOP, TOLL, 4, 11),
            (0, TOP, 4, TOLL, 11),
        ] {
            slot_refused(
                &rt,
                heap,
                Slot {
                    low,
                    high,
                    up,
                    down,
                    ..one
                },
                number,
            )?;
        }
    }
    Ok(())
}

// The longest sheet: the most slots, with the longest records.
fn longest(heap: Global) -> Result<Vec<u8>, AllocError> {
    let one = wide(knees(5, -1, 2, [10, 11], [0, 1]));
    sheet_of(heap, &[one; 192])
}

fn longest_told(rt: &impl Abort, heap: Global) -> Result<(), Fail> {
    let sheet = longest(heap)?;
    let said = report_on(heap, &sheet)?.ok();
    let text = said
        .as_ref()
        .ok_or("the longest sheet is refused")?
        .as_str();
    assert!(rt; text.starts_with("slots 192 cost -960\n0 10 -5 0\n1 10 -5 0\n"));
    assert!(rt; text.ends_with("\n190 10 -5 0\n191 10 -5 0\n"));
    Ok(())
}

// Holds the longest sheet to be refused with more behind it, whatever that is.
fn longer_refused(rt: &impl Abort, heap: Global, more: &[u8]) -> Result<(), Fail> {
    let mut sheet = longest(heap)?;
    sheet.extend_from_slice(more)?;
    says(rt, heap, &sheet, Err("refused 12 slot 192 byte 11904\n"))
}

#[test]
fn a_sheet_has_192_slots(rt: HostRuntime) -> Result<(), Fail> {
    let heap = rt.alloc();
    longest_told(&rt, heap)?;
    longer_refused(&rt, heap, &[0])?;
    longer_refused(&rt, heap, &[3])?;
    longer_refused(&rt, heap, KINDS)
}
