// Answers as lines.
ghost use Rattle.std.specs.Prelude.{◌≡◌, map, IfOk, string_bytes, OnOk};
ghost use Rattle.std.specs.Slice.Iter.{iter_rest};
ghost use Rattle.replay.specs.Telling.{answer_text};
ghost use Rattle.script.specs.Entries.{plain_call, entry_fault, makeable};
ghost use Rattle.script.specs.Telling.{entry_text, moments_after, report_text};

use crate::entry::Entry;
use curve::written::Written;
use replay::answer::{Answer, CallFault};
use replay::call::{Call, Moment};
use std::alloc::{AllocError, Global};
use std::slice::Iter;

// The line that tells an answer.
pub fn describe(heap: Global, answer: &Result<Answer, CallFault>) -> Result<String, AllocError>
    ensures { IfOk result (λ s. string_bytes s ≡ answer_text answer.now) }
{
    match answer {
        Ok(answer) => format!(in heap; "{answer}"),
        Err(fault) => format!(in heap; "{fault}"),
    }
}

// The calls of the entries whose curves can be made.
pub fn calls_of(heap: Global, entries: &[Entry]) -> Result<Vec<Call<'_, Written>>, AllocError>
    ensures { IfOk result (λ calls. map plain_call calls.items ≡ makeable entries.now) }
{
    entries
        .iter()
        .filter(|item| item.fault().is_none())
        .map(Call::from)
        .collect(heap)
}

// The line of an entry: its curve's fault, or the next moment's answer.
fn next_line(
    heap: Global,
    item: &Entry,
    told: &mut Iter<'_, Moment<Written>>,
) -> Result<String, AllocError>
    ensures line { IfOk result (λ s. string_bytes s ≡ entry_text (entry_fault item.now) (iter_rest told.old)) }
    ensures left { OnOk result (iter_rest told.new ≡ moments_after (entry_fault item.now) (iter_rest told.old)) }
{
    if let Some(fault) = item.fault() {
        return format!(in heap; "{fault}\n");
    }
    let Some(moment) = told.next() else {
        return Ok(String::new(heap));
    };
    let mut line = describe(heap, &moment.answer)?;
    line.push('\n')?;
    Ok(line)
}

// A line for each entry: its curve's fault, or the next moment's answer.
pub fn report(
    heap: Global,
    entries: &[Entry],
    moments: &[Moment<Written>],
) -> Result<String, AllocError>
    ensures { IfOk result (λ s. string_bytes s ≡ report_text entries.now moments.now) }
{
    let mut text = String::new(heap);
    let mut told = moments.iter();
    for item in entries {
        let line = next_line(heap, item, &mut told)?;
        text.push_str(line.as_str())?;
    }
    Ok(text)
}
