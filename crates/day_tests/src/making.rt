// What the tests share: slots in few words, and days of slots.
use curve::limits::TOP;
use curve::written::Written;
use day::day::Day;
use slots::refusal::Refusal;
use slots::slot::Slot;

pub(crate) fn square(weight: u32, target: u16) -> Written {
    Written::Square { weight, target }
}

// A band with one rate on both sides.
pub(crate) fn band(cold: u16, warm: u16, rate: u32) -> Written {
    Written::Band {
        cold,
        warm,
        cold_rate: rate,
        warm_rate: rate,
    }
}

pub(crate) fn slot(curve: Written, low: u16, high: u16, up: u32, down: u32) -> Slot<Written> {
    Slot {
        curve,
        low,
        high,
        up,
        down,
    }
}

// A slot over all levels, with one toll for both ways.
pub(crate) fn wide(curve: Written, toll: u32) -> Slot<Written> {
    slot(curve, 0, TOP, toll, toll)
}

// Squares of target 10, 20 and 10, with one toll for both ways.
pub(crate) fn squares(toll: u32) -> [Slot<Written>; 3] {
    [
        wide(square(1, 10), toll),
        wide(square(1, 20), toll),
        wide(square(1, 10), toll),
    ]
}

// A band with both edges 5, then one with both edges 9, with rates and tolls of 3.
pub(crate) fn bands() -> [Slot<Written>; 2] {
    [wide(band(5, 5, 3), 3), wide(band(9, 9, 3), 3)]
}

// A day of slots, over memory that has room for them.
pub(crate) fn day_of<'m, C: Copy>(
    memory: &'m mut [Slot<C>],
    slots: &[Slot<C>],
) -> Result<Day<'m, C>, Refusal> {
    let mut day = Day::open(memory);
    for slot in slots {
        day.add(*slot)?;
    }
    Ok(day)
}

pub(crate) fn all_are<T: PartialEq>(items: &[T], value: &T) -> bool {
    items.iter().all(|item| *item == *value)
}
