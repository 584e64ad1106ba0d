// What the words of one line say.
ghost use Rattle.std.specs.Prelude.{◌≡◌, ◌+◌, ◌<◌, length, take, drop, pos, Some, None, MatchOption};
ghost use Rattle.script.specs.Answers.{texts, Says};
ghost use Rattle.script.specs.Entries.{entry_call};
ghost use Rattle.script.specs.Reading.{square_of, band_of, knots_of, zeros, knees_of, curve_of, slot_of, replace_of, buffers_of, sides, drop_of, sheet_of, check_of, call_of, opening_of};

use crate::bytes::bytes_of;
use crate::entry::Entry;
use crate::fault::LineFault;
use crate::number::{number, numbers};
use curve::limits::KNEE_LIMIT;
use curve::written::Written;
use replay::call::Buffers;
use slots::limits::{MOST_SLOTS, TABLE_LENGTH};
use slots::slot::Slot;
use std::alloc::Global;

fn square_of(words: &[&str]) -> Result<Written, LineFault>
    ensures { Says (λ c. c) result (square_of (texts words.now)) }
{
    let [weight, target] = words else {
        return Err(LineFault::NotACall);
    };
    Ok(Written::Square {
        weight: number(weight)?,
        target: number(target)?,
    })
}

fn band_of(words: &[&str]) -> Result<Written, LineFault>
    ensures { Says (λ c. c) result (band_of (texts words.now)) }
{
    let [cold, warm, cold_rate, warm_rate] = words else {
        return Err(LineFault::NotACall);
    };
    Ok(Written::Band {
        cold: number(cold)?,
        warm: number(warm)?,
        cold_rate: number(cold_rate)?,
        warm_rate: number(warm_rate)?,
    })
}

// How many knees there are, and the levels and steps of the first six.
#[derive(Clone, Copy)]
struct Knots {
    count: usize,
    levels: [u16; KNEE_LIMIT],
    steps: [i32; KNEE_LIMIT],
}

// A level and a step for each knee.
fn knots_of(words: &[&str]) -> Result<Knots, LineFault>
    ensures { Says (λ k. k) result (knots_of 0 (zeros 0) (zeros (pos 0)) (texts words.now)) }
{
    let (pairs, []) = words.as_chunks::<2>() else {
        return Err(LineFault::NotACall);
    };
    let mut levels = [0; KNEE_LIMIT];
    let mut steps = [0; KNEE_LIMIT];
    for (i, [level, step]) in pairs.iter().enumerate() {
        let level = number(level)?;
        let step = number(step)?;
        if i < KNEE_LIMIT {
            levels[i] = level;
            steps[i] = step;
        }
    }
    Ok(Knots {
        count: pairs.len(),
        levels,
        steps,
    })
}

// There is one knee at least. More than can be counted are as many as can be: too many for a curve all the same.
fn knees_of(words: &[&str]) -> Result<Written, LineFault>
    ensures { Says (λ c. c) result (knees_of (texts words.now)) }
{
    let [ground, first, knees @ ..] = words else {
        return Err(LineFault::NotACall);
    };
    if words.len() < 4 {
        return Err(LineFault::NotACall);
    }
    let ground = number(ground)?;
    let first = number(first)?;
    let Knots {
        count,
        levels,
        steps,
    } = knots_of(knees)?;
    Ok(Written::Knees {
        ground,
        first,
        count: u8::try_from(count).unwrap_or(u8::MAX),
        levels,
        steps,
    })
}

fn curve_of(words: &[&str]) -> Result<Written, LineFault>
    ensures { Says (λ c. c) result (curve_of (texts words.now)) }
{
    let [kind, rest @ ..] = words else {
        return Err(LineFault::NotACall);
    };
    match *kind {
        "square" => square_of(rest),
        "band" => band_of(rest),
        "knees" => knees_of(rest),
        _ => Err(LineFault::NotACall),
    }
}

fn slot_of(words: &[&str]) -> Result<Slot<Written>, LineFault>
    ensures { Says (λ s. s) result (slot_of (texts words.now)) }
{
    let [low, high, up, down, curve @ ..] = words else {
        return Err(LineFault::NotACall);
    };
    Ok(Slot {
        low: number(low)?,
        high: number(high)?,
        up: number(up)?,
        down: number(down)?,
        curve: curve_of(curve)?,
    })
}

fn replace_of(words: &[&str]) -> Result<Entry, LineFault>
    ensures { Says entry_call result (replace_of (texts words.now)) }
{
    let [place, slot @ ..] = words else {
        return Err(LineFault::NotACall);
    };
    Ok(Entry::Replace(number(place)?, slot_of(slot)?))
}

// With no words, the lengths that the largest day needs.
fn buffers_of(words: &[&str]) -> Result<Buffers, LineFault>
    ensures { Says (λ b. b) result (buffers_of (texts words.now)) }
{
    match words {
        [] => Ok(Buffers {
            levels: MOST_SLOTS,
            leans: MOST_SLOTS,
            table: TABLE_LENGTH,
            marks: 2 * MOST_SLOTS,
        }),
        [levels, leans, table, marks] => Ok(Buffers {
            levels: number(levels)?,
            leans: number(leans)?,
            table: number(table)?,
            marks: number(marks)?,
        }),
        _ => Err(LineFault::NotACall),
    }
}

// The place of the first colon.
fn colon_of(words: &[&str]) -> Option<usize>
    ensures { MatchOption result (sides (texts words.now) ≡ None) (λ i. (i < length words.now) × (sides (texts words.now) ≡ Some (texts (take i words.now), texts (drop (i + 1) words.now)))) }
{
    words.iter().position(|word| *word == ":")
}

fn check_of(heap: Global, words: &[&str]) -> Result<Entry, LineFault>
    ensures { Says entry_call result (check_of (texts words.now)) }
{
    let colon = colon_of(words).ok_or(LineFault::NotACall)?;
    let levels = numbers(heap, &words[..colon])?;
    let leans = numbers(heap, &words[colon + 1..])?;
    Ok(Entry::Check(levels, leans))
}

fn drop_of(words: &[&str]) -> Result<Entry, LineFault>
    ensures { Says entry_call result (drop_of (texts words.now)) }
{
    match words {
        [] => Ok(Entry::Drop),
        _ => Err(LineFault::NotACall),
    }
}

// With no words, the empty sheet.
fn sheet_of(heap: Global, words: &[&str]) -> Result<Entry, LineFault>
    ensures { Says entry_call result (sheet_of (texts words.now)) }
{
    match words {
        [] => Ok(Entry::Sheet(Vec::new(heap))),
        [hex] => Ok(Entry::Sheet(bytes_of(heap, hex)?)),
        _ => Err(LineFault::NotACall),
    }
}

// The length of the slot memory, where a line opens one.
pub(crate) fn opening_of(words: &[&str]) -> Option<usize>
    ensures { result ≡ opening_of (texts words.now) }
{
    match words {
        ["open", slots] => slots.parse().ok(),
        _ => None,
    }
}

pub(crate) fn entry_of(heap: Global, words: &[&str]) -> Result<Entry, LineFault>
    ensures { Says entry_call result (call_of (texts words.now)) }
{
    let [verb, rest @ ..] = words else {
        return Err(LineFault::NotACall);
    };
    match *verb {
        "add" => Ok(Entry::Add(slot_of(rest)?)),
        "replace" => replace_of(rest),
        "drop" => drop_of(rest),
        "sheet" => sheet_of(heap, rest),
        "price" => Ok(Entry::Price(numbers(heap, rest)?)),
        "plan" => Ok(Entry::Plan(buffers_of(rest)?)),
        "check" => check_of(heap, rest),
        _ => Err(LineFault::NotACall),
    }
}
