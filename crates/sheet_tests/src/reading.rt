// Reading sheets over a day that has slots.
use crate::making::{KINDS, kinds, put, sheet_of, wide, widest};
use crate::reports::is_refused;
use curve::written::Written;
use day::day::Day;
use sheet::fault::{RecordFault, SheetFault};
use sheet::read::read;
use slots::refusal::Refusal;
use slots::slot::Slot;
use std::alloc::{AllocError, Global};
use std::process::Abort;
use std::test::Fail;

// The memory before a sheet is read: a day of two slots, and four places behind it.
fn before() -> [Slot<Written>; 6] {
    let [first, second, third] = kinds();
    [
        second,
        first,
        wide(Written::Square {
            weight: 5,
            target: 6,
        }),
        third,
        first,
        second,
    ]
}

// Reads a sheet over a day of the first two slots of its memory. Answers the fault, and how many slots the day then has.
fn read_into(
    memory: &mut [Slot<Written>; 6],
    sheet: &[u8],
) -> Result<(Option<SheetFault>, usize), Refusal> {
    let [first, second, ..] = *memory;
    let mut day = Day::open(memory);
    day.add(first)?;
    day.add(second)?;
    let fault = read(&mut day, sheet).err();
    Ok((fault, day.slots().len()))
}

// Holds memory to the slots of a sheet and those behind them.
fn memory_is(
    rt: &impl Abort,
    heap: Global,
    memory: &[Slot<Written>],
    sheet: &[u8],
    behind: &[Slot<Written>],
) -> Result<(), Fail> {
    let mut expected = sheet.to_vec(heap)?;
    put(&mut expected, behind)?;
    assert_eq!(rt; sheet_of(heap, memory)?, expected);
    Ok(())
}

// Reads a sheet over a day. A refused one must leave the day and all of the memory, and one that is read must be the day, and leave the memory behind it. Answers the fault.
fn read_over(rt: &impl Abort, heap: Global, sheet: &[u8]) -> Result<Option<SheetFault>, Fail> {
    let before = before();
    let mut memory = before;
    let (fault, count) = read_into(&mut memory, sheet)?;
    if fault.is_some() {
        assert_eq!(rt; count, 2);
        assert_eq!(rt; memory, before);
    } else {
        assert!(rt; count <= 6);
        memory_is(rt, heap, &memory, sheet, &before[count..])?;
    }
    Ok(fault)
}

// Cuts a sheet of a record of each kind to a length: it is read where a record ends, and else refused for the record that is cut.
fn cuts(rt: &impl Abort, heap: Global, sheet: &[u8], length: usize) -> Result<(), Fail> {
    let (slot, place) = match length {
        0..19 => (0, 0),
        19..44 => (1, 19),
        44..106 => (2, 44),
        _ => (3, 106),
    };
    let fault = RecordFault::CutShort;
    let expected = if length == place {
        None
    } else {
        Some(SheetFault { fault, slot, place })
    };
    assert!(rt; length <= sheet.len());
    assert_eq!(rt;
        read_over(rt, heap, &sheet[0..length])?,
        expected,
        "length {length}"
    );
    Ok(())
}

fn damaged(heap: Global, sheet: &[u8], place: usize, value: u8) -> Result<Vec<u8>, AllocError> {
    let mut copy = sheet.to_vec(heap)?;
    if let Some(byte) = copy.get_mut(place) {
        *byte = value;
    }
    Ok(copy)
}

// Turns one byte of a sheet to each value, reads it, and asks what is said of it.
fn damages(rt: &impl Abort, heap: Global, sheet: &[u8], place: usize) -> Result<(), Fail> {
    for value in 0..256u16 {
        let turned = damaged(heap, sheet, place, value as u8)?;
        let fault = read_over(rt, heap, &turned)?;
        assert_eq!(rt;
            is_refused(heap, &turned)?,
            fault.is_some(),
            "place {place}"
        );
    }
    Ok(())
}

fn cuts_and_damages(rt: &impl Abort, heap: Global, slots: &[Slot<Written>; 3]) -> Result<(), Fail> {
    let sheet = sheet_of(heap, slots)?;
    for place in 0..107usize {
        cuts(rt, heap, &sheet, place)?;
        damages(rt, heap, &sheet, place)?;
    }
    Ok(())
}

#[test]
fn a_cut_or_damaged_sheet_is_read_or_changes_nothing(rt: HostRuntime) -> Result<(), Fail> {
    let heap = rt.alloc();
    cuts_and_damages(&rt, heap, &kinds())?;
    cuts_and_damages(&rt, heap, &widest())
}

#[test]
fn a_record_of_each_kind_has_its_bytes(rt: HostRuntime) -> Result<(), Fail> {
    let sheet = sheet_of(rt.alloc(), &kinds())?;
    assert_eq!(rt; sheet.as_slice(), KINDS);
    Ok(())
}

// Reads a sheet for more slots than a day can hold.
fn overfills(rt: &impl Abort, room: usize, sheet: &[u8], place: usize) {
    let mut memory = before();
    assert!(rt; room <= 6);
    let mut day = Day::open(&mut memory[0..room]);
    let fault = RecordFault::Refused(Refusal::Full);
    let slot = room;
    assert_eq!(rt;
        read(&mut day, sheet),
        Err(SheetFault { fault, slot, place })
    );
    assert_eq!(rt; day.slots().len(), 0);
}

#[test]
fn a_day_is_full_before_the_next_record_is_looked_at(rt: HostRuntime) {
    overfills(&rt, 0, &[0], 0);
    overfills(&rt, 0, KINDS, 0);
    overfills(&rt, 1, KINDS, 19);
    overfills(&rt, 2, KINDS, 44);
}
