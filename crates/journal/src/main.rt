// Replays a journal of calls from standard input, and prints a line for each call.
#![tactic(auto)]

use curve::written::Written;
use replay::replay::replay_written;
use script::parse::parse;
use script::report::{calls_of, report};
use slots::limits::MOST_SLOTS;
use slots::slot::Slot;
use std::alloc::{AllocError, Global};
use std::io;
use std::process::ExitCode;

// More than the largest day holds would never be used.
fn slot_memory(heap: Global, slots: usize) -> Result<Vec<Slot<Written>>, AllocError> {
    vec![in heap; Slot::default(); slots.min(MOST_SLOTS)]
}

fn run(rt: &HostRuntime) -> anyhow::Result<()> {
    let heap = rt.alloc();
    let text = io::read_to_string(heap, rt.stdin())?;
    let script = parse(heap, text.as_str())?;
    let calls = calls_of(heap, &script.entries)?;
    let mut memory = slot_memory(heap, script.slots)?;
    let moments = replay_written(heap, &mut memory, &calls)?;
    rt.print(report(heap, &script.entries, &moments)?)?;
    Ok(())
}

fn main(rt: HostRuntime) -> ExitCode {
    match run(&rt) {
        Ok(()) => ExitCode::SUCCESS,
        Err(fault) => {
            let _ = eprintln!(rt; "{fault}");
            ExitCode::FAILURE
        }
    }
}
