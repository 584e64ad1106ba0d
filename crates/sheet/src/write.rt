// Writing a day as a sheet.
ghost use Rattle.std.specs.Prelude.{◌≡◌, ◌+◌, ◌≤◌, ◌++◌, length, take, drop, IfOk};
ghost use Rattle.curve.specs.Limits.{knee_limit};
ghost use Rattle.slots.specs.Limits.{most_slots};
ghost use Rattle.slots.specs.Refusals.{told};
ghost use Rattle.day.specs.View.{plain};
ghost use Rattle.sheet.specs.Buffers.{Puts};
ghost use Rattle.sheet.specs.Fields.{size, packed};
ghost use Rattle.sheet.specs.Kinds.{knee_fields, curve_fields, kind_of_curve, body_length};
ghost use Rattle.sheet.specs.Records.{encode_slot};
ghost use Rattle.sheet.specs.SlotFields.{knee_values, curve_bytes};
ghost use Rattle.sheet.specs.RoundTrips.{ReadsBack};
ghost use Rattle.sheet.specs.Sheets.{encode, write_refusal, written_over};

use crate::kinds::Kind;
use crate::writer::Writer;
use curve::written::Written;
use day::day::Day;
use slots::refusal::Refusal;
use slots::slot::Slot;

// Writes the knees of a curve: those past the count are zero.
fn put_knees(writer: &mut Writer, count: u8, levels: &[u16; 6], steps: &[i32; 6])
    requires { writer.old.place + size (knee_fields knee_limit) ≤ length writer.old.out.now }
    ensures { Puts writer.old (packed (knee_fields knee_limit) (knee_values knee_limit 0 count levels.now steps.now)) writer.new }
{
    for (k, (level, step)) in levels.iter().zip(steps.iter()).enumerate() {
        let (level, step) = if k < count as usize {
            (*level, *step)
        } else {
            (0, 0)
        };
        writer.put(level.to_be_bytes());
        writer.put(step.to_be_bytes());
    }
}

// Writes the fields of a curve.
fn put_curve(writer: &mut Writer, curve: &Written)
    requires { writer.old.place + size (curve_fields (kind_of_curve curve.now)) ≤ length writer.old.out.now }
    ensures { Puts writer.old (curve_bytes curve.now) writer.new }
{
    match curve {
        Written::Square { weight, target } => {
            writer.put(weight.to_be_bytes());
            writer.put(target.to_be_bytes());
        }
        Written::Band {
            cold,
            warm,
            cold_rate,
            warm_rate,
        } => {
            writer.put(cold.to_be_bytes());
            writer.put(warm.to_be_bytes());
            writer.put(cold_rate.to_be_bytes());
            writer.put(warm_rate.to_be_bytes());
        }
        Written::Knees {
            ground,
            first,
            count,
            levels,
            steps,
        } => {
            writer.put(ground.to_be_bytes());
            writer.put(first.to_be_bytes());
            writer.put(count.to_be_bytes());
            put_knees(writer, *count, levels, steps);
        }
    }
}

// Writes a slot's record.
fn put_slot(writer: &mut Writer, slot: &Slot<Written>)
    requires { writer.old.place + (1 + body_length (kind_of_curve slot.now.curve)) ≤ length writer.old.out.now }
    ensures { Puts writer.old (encode_slot slot.now) writer.new }
{
    writer.put([Kind::from(&slot.curve).byte()]);
    writer.put(slot.low.to_be_bytes());
    writer.put(slot.high.to_be_bytes());
    writer.put(slot.up.to_be_bytes());
    writer.put(slot.down.to_be_bytes());
    put_curve(writer, &slot.curve);
}

// The length of the sheet of slots.
fn sheet_length(slots: &[Slot<Written>]) -> usize
    requires { length slots.now ≤ most_slots }
    ensures { result ≡ length (encode slots.now) }
{
    slots
        .iter()
        .map(|slot| 1 + Kind::from(&slot.curve).body_length())
        .sum()
}

// Writes the sheet of slots over the first of a buffer.
fn put_slots(out: &mut [u8], slots: &[Slot<Written>])
    requires { length (encode slots.now) ≤ length out.old }
    ensures { out.new ≡ encode slots.now ++ drop (length (encode slots.now)) out.old }
{
    let mut writer = Writer { out, place: 0 };
    for slot in slots {
        put_slot(&mut writer, slot);
    }
}

// Puts the sheet of a day into a buffer, and answers its length. A refusal changes nothing.
pub fn write(day: &Day<'_, Written>, buffer: &mut [u8]) -> Result<usize, Refusal>
    ensures answer { result ≡ told (write_refusal (plain day.now).slots buffer.old) (length (encode (plain day.now).slots)) }
    ensures buffer { buffer.new ≡ written_over (write_refusal (plain day.now).slots buffer.old) (encode (plain day.now).slots) buffer.old }
    ensures back { IfOk result (λ n. ReadsBack (plain day.now).slots (take n buffer.new)) }
{
    let slots = day.slots();
    let needed = sheet_length(slots);
    if buffer.len() < needed {
        return Err(Refusal::Short);
    }
    put_slots(buffer, slots);
    Ok(needed)
}
