// Slots in few words, and the records of slots, good or not.
use curve::limits::TOP;
use curve::written::Written;
use slots::slot::Slot;
use std::alloc::{AllocError, Global};

// Two knees, of which a count may take more or fewer.
pub(crate) fn knees(
    ground: i64,
    first: i32,
    count: u8,
    [level, next_level]: [u16; 2],
    [step, next_step]: [i32; 2],
) -> Written {
    Written::Knees {
        ground,
        first,
        count,
        levels: [level, next_level, 0, 0, 0, 0],
        steps: [step, next_step, 0, 0, 0, 0],
    }
}

// A slot over all levels, with tolls of 4.
pub(crate) fn wide(curve: Written) -> Slot<Written> {
    Slot {
        curve,
        low: 0,
        high: TOP,
        up: 4,
        down: 4,
    }
}

// The sheet of a slot of each kind.
pub(crate) const KINDS: &[u8] = b"\
    \x01\x01\x02\x03\x04\x05\x06\x07\x08\x09\x0a\x0b\x0c\x00\x01\x02\x03\x03\x04\
    \x02\x00\x01\x02\x03\x0d\x0e\x0f\x10\x11\x12\x13\x14\x01\x02\x03\x04\x11\x12\x13\x14\x15\x16\x17\x18\
    \x03\x00\x00\x03\xff\x00\x00\x00\x00\x3b\x9a\xca\x00\xff\xff\xff\xff\xff\xff\xfc\x18\xff\xff\xff\xfd\x02\
    \x00\x04\xff\xff\xff\xfe\x01\x02\x0a\x0b\x0c\x0d\
    \x00\x00\x00\x00\x00\x00\x00\x00\x00\x00\x00\x00\x00\x00\x00\x00\x00\x00\x00\x00\x00\x00\x00\x00";

// The slots of that sheet.
pub(crate) fn kinds() -> [Slot<Written>; 3] {
    let band = Written::Band {
        cold: 0x0102,
        warm: 0x0304,
        cold_rate: 0x1112_1314,
        warm_rate: 0x1516_1718,
    };
    [
        Slot {
            curve: Written::Square {
                weight: 0x0001_0203,
                target: 0x0304,
            },
            low: 0x0102,
            high: 0x0304,
            up: 0x0506_0708,
            down: 0x090a_0b0c,
        },
        Slot {
            curve: band,
            low: 0x0001,
            high: 0x0203,
            up: 0x0d0e_0f10,
            down: 0x1112_1314,
        },
        Slot {
            curve: knees(-1000, -3, 2, [4, 0x0102], [-2, 0x0a0b_0c0d]),
            low: 0,
            high: TOP,
            up: 0,
            down: 1_000_000_000,
        },
    ]
}

// A slot of each kind, with every number at its limit.
pub(crate) fn widest() -> [Slot<Written>; 3] {
    let band = Written::Band {
        cold: TOP,
        warm: TOP,
        cold_rate: 900_000_000,
        warm_rate: 900_000_000,
    };
    let knees = Written::Knees {
        ground: -1_000_000_000_000,
        first: -900_000_000,
        count: 6,
        levels: [1, 2, 3, 4, 5, 1022],
        steps: [-900_000_000, -1, 0, 1, 899_999_999, 900_000_000],
    };
    let square = Written::Square {
        weight: 400_000,
        target: TOP,
    };
    let toll = 1_000_000_000;
    [(square, 0, 0), (band, TOP, TOP), (knees, 0, TOP)].map(|(curve, low, high)| Slot {
        curve,
        low,
        high,
        up: toll,
        down: toll,
    })
}

fn put_knees(sheet: &mut Vec<u8>, levels: &[u16; 6], steps: &[i32; 6]) -> Result<(), AllocError> {
    for (level, step) in levels.iter().zip(steps) {
        sheet.extend_from_slice(&level.to_be_bytes())?;
        sheet.extend_from_slice(&step.to_be_bytes())?;
    }
    Ok(())
}

fn put_curve(sheet: &mut Vec<u8>, curve: &Written) -> Result<(), AllocError> {
    match curve {
        Written::Square { weight, target } => {
            sheet.extend_from_slice(&weight.to_be_bytes())?;
            sheet.extend_from_slice(&target.to_be_bytes())
        }
        Written::Band {
            cold,
            warm,
            cold_rate,
            warm_rate,
        } => {
            sheet.extend_from_slice(&cold.to_be_bytes())?;
            sheet.extend_from_slice(&warm.to_be_bytes())?;
            sheet.extend_from_slice(&cold_rate.to_be_bytes())?;
            sheet.extend_from_slice(&warm_rate.to_be_bytes())
        }
        Written::Knees {
            ground,
            first,
            count,
            levels,
            steps,
        } => {
            sheet.extend_from_slice(&ground.to_be_bytes())?;
            sheet.extend_from_slice(&first.to_be_bytes())?;
            sheet.push(*count)?;
            put_knees(sheet, levels, steps)
        }
    }
}

fn kind_of(curve: &Written) -> u8 {
    match *curve {
        Written::Square { .. } => 1,
        Written::Band { .. } => 2,
        Written::Knees { .. } => 3,
    }
}

fn put_slot(sheet: &mut Vec<u8>, slot: &Slot<Written>) -> Result<(), AllocError> {
    sheet.push(kind_of(&slot.curve))?;
    sheet.extend_from_slice(&slot.low.to_be_bytes())?;
    sheet.extend_from_slice(&slot.high.to_be_bytes())?;
    sheet.extend_from_slice(&slot.up.to_be_bytes())?;
    sheet.extend_from_slice(&slot.down.to_be_bytes())?;
    put_curve(sheet, &slot.curve)
}

// Puts the records of slots behind a sheet.
pub(crate) fn put(sheet: &mut Vec<u8>, slots: &[Slot<Written>]) -> Result<(), AllocError> {
    for slot in slots {
        put_slot(sheet, slot)?;
    }
    Ok(())
}

// The sheet of slots.
pub(crate) fn sheet_of(heap: Global, slots: &[Slot<Written>]) -> Result<Vec<u8>, AllocError> {
    let mut sheet = Vec::new(heap);
    put(&mut sheet, slots)?;
    Ok(sheet)
}
