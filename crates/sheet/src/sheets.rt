// How days of a kind of curve are read from sheets.
ghost use Rattle.std.specs.Prelude.{◌≡◌, ℕ, true, List, Ok, Err, Result};
ghost use Rattle.slots.specs.Slots.{all_proper};
ghost use Rattle.slots.specs.declared.slot.Slot.{Slot};
ghost use Rattle.day.specs.View.{plain, memory_of};
ghost use Rattle.sheet.specs.Sheets.{decoded as decoded_sheet, answered, replaced, laid_over};
ghost use Rattle.sheet.specs.declared.fault.RecordFault.TheVariants.{UnknownKind};
ghost use Rattle.sheet.specs.declared.fault.SheetFault.{SheetFault};
ghost use Rattle.sheet.specs.ProperSheets.{proper_decode};
ghost use Rattle.std.proofs.Common.{rules};

use crate::fault::{RecordFault, SheetFault};
use crate::read::read;
use curve::written::Written;
use day::day::Day;

pub trait Sheets<C> {
    // The slots of a sheet, for a day that can hold so many, or its fault.
    ghost decoded: { ℕ → List ℕ → Result (List (Slot C)) SheetFault };

    // Replaces the day by the slots of a sheet. A refused sheet changes nothing.
    fn read(day: &mut Day<'_, C>, sheet: &[u8]) -> Result<(), SheetFault>
        ensures answer { result ≡ answered (decoded (plain day.old).room sheet.now) }
        ensures day { plain day.new ≡ replaced (plain day.old) (decoded (plain day.old).room sheet.now) }
        ensures memory { memory_of day.new ≡ laid_over (memory_of day.old) (decoded (plain day.old).room sheet.now) }
        ensures lender { day.new.slots.ghost_name ≡ day.old.slots.ghost_name };

    ghost proper: { (room : ℕ) (sheet : List ℕ) (slots : List (Slot C)) → decoded room sheet ≡ Ok slots → all_proper slots ≡ true };
}

// Sheets of written curves.
pub struct Records;

impl Sheets<Written> for Records {
    ghost decoded = { decoded_sheet };

    ghost proper = { λ room sheet slots is. proper_decode room 0 0 sheet slots is };

    fn read(day: &mut Day<'_, Written>, sheet: &[u8]) -> Result<(), SheetFault> {
        read(day, sheet)
    }
}

// For kinds of curve that have no records: no sheet is read.
pub struct NoRecords;

impl<C> Sheets<C> for NoRecords {
    ghost decoded = { λ _ _. Err (record { fault = UnknownKind; slot = 0; place = 0 }) };

    ghost proper = { Prim.search rules };

    fn read(_day: &mut Day<'_, C>, _sheet: &[u8]) -> Result<(), SheetFault> {
        Err(SheetFault {
            fault: RecordFault::UnknownKind,
            slot: 0,
            place: 0,
        })
    }
}
