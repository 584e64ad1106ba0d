// The report on a sheet: its plan, or why it is refused.
ghost use Rattle.std.specs.Prelude.{◌≡◌, IfOk, string_bytes, Ok, Err, is_err};
ghost use Rattle.day.specs.View.{terms_of};
ghost use Rattle.sheet.specs.Sheets.{decoded};
ghost use Rattle.slots.specs.Limits.{most_slots};
ghost use Rattle.report.specs.Reports.{plan_text, sheet_text, is_refused, said};

use crate::text::PlanText;
use curve::Curve;
use curve::written::Written;
use day::day::Day;
use sheet::read::read;
use slots::limits::MOST_SLOTS;
use slots::slot::Slot;
use std::alloc::{AllocError, Global};

// The text of a day's plan, kept in memory.
pub fn plan_report<C: Curve + Copy>(heap: Global, day: &Day<'_, C>) -> Result<String, AllocError>
    ensures { IfOk result (λ s. string_bytes s ≡ plan_text (terms_of C.Curve.ground C.Curve.steps day.now)) }
{
    PlanText { day }.to_string(heap)
}

// What is said of a sheet: the text of its plan, or of its refusal.
pub fn report_on(heap: Global, sheet: &[u8]) -> Result<Result<String, String>, AllocError>
    ensures text { IfOk result (λ r. said r ≡ sheet_text (decoded most_slots sheet.now)) }
    ensures refused { IfOk result (λ r. is_err r ≡ is_refused (decoded most_slots sheet.now)) }
{
    let mut memory = [Slot::default(); MOST_SLOTS];
    let mut day = Day::open(&mut memory);
    Ok(match read(&mut day, sheet) {
        Ok(()) => Ok(plan_report(heap, &day)?),
        Err(fault) => Err(format!(in heap; "{fault}\n")?),
    })
}
