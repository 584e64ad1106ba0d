// A text as a journal.
ghost use Rattle.std.specs.Prelude.{◌≡◌, ◌<◌, true, IfOk};
ghost use Rattle.script.specs.Answers.{texts, Says, plain_line, Reads};
ghost use Rattle.script.specs.Reading.{line_of, lines_from, reading};
ghost use Rattle.script.specs.Words.{cut};

use crate::entry::{Entry, Script};
use crate::fault::{LineFault, ScriptFault};
use crate::line::{entry_of, opening_of};
use slots::limits::MOST_SLOTS;
use std::alloc::{AllocError, Global};

// What a line says that is not blank: the length of the slot memory, or a call.
#[derive(Drop)]
enum Line {
    Open(usize),
    Call(Entry),
}

// The pieces of a text between the places of an ASCII character.
fn pieces(heap: Global, text: &str, at: char) -> Result<Vec<&str>, AllocError>
    requires { at < 128 }
    ensures { IfOk result (λ v. texts v.items ≡ cut at text.now) }
{
    text.split(at).collect(heap)
}

// Only the first line may open slot memory.
fn read_line(heap: Global, first: bool, line: &str) -> Result<Line, LineFault>
    ensures { Says plain_line result (line_of first (cut 32 line.now)) }
{
    let words = pieces(heap, line, ' ')?;
    if first && let Some(slots) = opening_of(&words) {
        return Ok(Line::Open(slots));
    }
    Ok(Line::Call(entry_of(heap, &words)?))
}

// Blank lines are skipped.
fn read_lines(heap: Global, lines: &[&str]) -> Result<Script, ScriptFault>
    ensures { Reads result (lines_from true 192 1 (texts lines.now)) }
{
    let mut script = Script {
        slots: MOST_SLOTS,
        entries: Vec::new(heap),
    };
    let mut first = true;
    for (i, line) in lines.iter().enumerate() {
        if line.is_empty() {
            continue;
        }
        match read_line(heap, first, line).map_err(|fault| fault.at(i + 1))? {
            Line::Open(slots) => script.slots = slots,
            Line::Call(entry) => script.entries.push(entry)?,
        }
        first = false;
    }
    Ok(script)
}

// A text as a journal.
pub fn parse(heap: Global, text: &str) -> Result<Script, ScriptFault>
    ensures { Reads result (reading text.now) }
{
    let lines = pieces(heap, text, '\n')?;
    read_lines(heap, &lines)
}
