// The slot in the body of a record: its fields are read in their order.
ghost use Rattle.std.specs.Prelude.{◌≡◌, ◌≤◌, length};
ghost use Rattle.sheet.specs.Fields.{size, values};
ghost use Rattle.sheet.specs.Kinds.{curve_fields, body_length};
ghost use Rattle.sheet.specs.SlotFields.{curve_of, slot_in};

use crate::fields::Fields;
use crate::kinds::Kind;
use curve::limits::KNEE_LIMIT;
use curve::written::Written;
use slots::slot::Slot;

fn square(fields: &mut Fields) -> Written
    requires { size (curve_fields Kind.Square) ≤ length fields.old.left.now }
    ensures { result ≡ curve_of Kind.Square (values (curve_fields Kind.Square) 0 fields.old.left.now) }
{
    let weight = u32::from_be_bytes(fields.next());
    let target = u16::from_be_bytes(fields.next());
    Written::Square { weight, target }
}

fn band(fields: &mut Fields) -> Written
    requires { size (curve_fields Kind.Band) ≤ length fields.old.left.now }
    ensures { result ≡ curve_of Kind.Band (values (curve_fields Kind.Band) 0 fields.old.left.now) }
{
    let cold = u16::from_be_bytes(fields.next());
    let warm = u16::from_be_bytes(fields.next());
    let cold_rate = u32::from_be_bytes(fields.next());
    let warm_rate = u32::from_be_bytes(fields.next());
    Written::Band {
        cold,
        warm,
        cold_rate,
        warm_rate,
    }
}

fn knees(fields: &mut Fields) -> Written
    requires { size (curve_fields Kind.Knees) ≤ length fields.old.left.now }
    ensures { result ≡ curve_of Kind.Knees (values (curve_fields Kind.Knees) 0 fields.old.left.now) }
{
    let ground = i64::from_be_bytes(fields.next());
    let first = i32::from_be_bytes(fields.next());
    let count = u8::from_be_bytes(fields.next());
    let mut levels = [0; KNEE_LIMIT];
    let mut steps = [0; KNEE_LIMIT];
    for k in 0..KNEE_LIMIT {
        levels[k] = u16::from_be_bytes(fields.next());
        steps[k] = i32::from_be_bytes(fields.next());
    }
    Written::Knees {
        ground,
        first,
        count,
        levels,
        steps,
    }
}

// The curve of a kind, whose fields are the next.
fn curve_in(kind: Kind, fields: &mut Fields) -> Written
    requires { size (curve_fields kind) ≤ length fields.old.left.now }
    ensures { result ≡ curve_of kind (values (curve_fields kind) 0 fields.old.left.now) }
{
    match kind {
        Kind::Square => square(fields),
        Kind::Band => band(fields),
        Kind::Knees => knees(fields),
    }
}

// The slot of a body of a kind.
pub(crate) fn slot_in(kind: Kind, body: &[u8]) -> Slot<Written>
    requires { length body.now ≡ body_length kind }
    ensures { result ≡ slot_in kind body.now }
{
    let mut fields = Fields { left: body };
    let low = u16::from_be_bytes(fields.next());
    let high = u16::from_be_bytes(fields.next());
    let up = u32::from_be_bytes(fields.next());
    let down = u32::from_be_bytes(fields.next());
    let curve = curve_in(kind, &mut fields);
    Slot {
        curve,
        low,
        high,
        up,
        down,
    }
}
