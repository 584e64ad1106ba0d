// One record of a sheet.
ghost use Rattle.std.specs.Prelude.{◌≡◌, ◌<◌, ◌≤◌, ◌&&◌, ◌==◌, pos, map, drop, length, MatchResult, unsigned_abs};
ghost use Rattle.std.specs.List.{list_all};
ghost use Rattle.std.specs.Ordering.{int_eq};
ghost use Rattle.sheet.specs.Records.{Leaves, decode_record};
ghost use Rattle.sheet.specs.SlotFaults.{all_zero, unused_zero, slot_fault, unless_fault};

use crate::body::slot_in;
use crate::fault::RecordFault;
use crate::kinds::Kind;
use curve::limits::KNEE_LIMIT;
use curve::written::Written;
use slots::slot::Slot;

// Whether the numbers of the knees past the count are zero.
fn zero_past<T: Copy + PartialEq>(count: usize, numbers: &[T], zero: T) -> bool
    ensures { result ≡ list_all (λ number. T.eq number zero) (drop count numbers.now) }
{
    numbers.iter().skip(count).all(|number| *number == zero)
}

// Whether the unused knees are zero; a count that no curve has leaves this to the curve.
fn unused_zero(curve: &Written) -> bool
    ensures { result ≡ unused_zero curve.now }
{
    match curve {
        Written::Knees {
            count,
            levels,
            steps,
            ..
        } => {
            let count = *count as usize;
            !(1..=KNEE_LIMIT).contains(&count)
                || (zero_past(count, levels, 0) && zero_past(count, steps, 0))
        }
        _ => true,
    }
}

// Refuses a slot for the first of its faults.
fn test(slot: &Slot<Written>) -> Result<(), RecordFault>
    ensures { result ≡ unless_fault (slot_fault slot.now) tt }
{
    if !unused_zero(&slot.curve) {
        return Err(RecordFault::UnusedKnee);
    }
    slot.curve.fault().map_or(Ok(()), Err)?;
    slot.fits()?;
    Ok(())
}

// The slot of a record by its byte of kind and the bytes after that, and the bytes after its body.
pub(crate) fn record(kind: u8, rest: &[u8]) -> Result<(Slot<Written>, &[u8]), RecordFault>
    ensures { MatchResult result (λ taken. Leaves rest.now (decode_record kind rest.now) taken.0 taken.1.now) (λ fault. decode_record kind rest.now ≡ Err fault) }
{
    let kind = Kind::try_from(kind)?;
    let (body, left) = rest
        .split_at_checked(kind.body_length())
        .ok_or(RecordFault::CutShort)?;
    let slot = slot_in(kind, body);
    test(&slot)?;
    Ok((slot, left))
}
