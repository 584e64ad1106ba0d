// Reads a sheet from standard input, and prints the plan of its day, or why it is refused.
#![tactic(auto)]

use report::report::report_on;
use std::io::Read;
use std::process::ExitCode;

// The bytes of the longest sheet, and one more, by which a longer one is known.
const MOST_BYTES: u64 = 11_905;

fn main(rt: HostRuntime) -> anyhow::Result<ExitCode> {
    let heap = rt.alloc();
    let mut sheet = Vec::new(heap);
    rt.stdin().take(MOST_BYTES).read_to_end(&mut sheet)?;
    let (text, status) = match report_on(heap, &sheet)? {
        Ok(plan) => (plan, ExitCode::SUCCESS),
        Err(refusal) => (refusal, ExitCode::FAILURE),
    };
    rt.print(text)?;
    Ok(status)
}
