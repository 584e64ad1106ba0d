// Reading a sheet into a day: every record is tested before the day is changed.
ghost use Rattle.std.specs.Prelude.{◌≡◌, [], Ok, OnOk};
ghost use Rattle.day.specs.View.{plain, memory_of};
ghost use Rattle.sheet.specs.AsEdits.{MadeByEdits};
ghost use Rattle.sheet.specs.RoundTrips.{WritesBack};
ghost use Rattle.sheet.specs.Sheets.{decoded, answered, read_answer, read_day, read_memory};

use crate::fault::SheetFault;
use crate::reader::Reader;
use curve::written::Written;
use day::day::Day;

// The first fault of a sheet, for a day that can hold so many slots.
fn test(sheet: &[u8], room: usize) -> Result<(), SheetFault>
    ensures { result ≡ answered (decoded room sheet.now) }
{
    let mut reader = Reader::new(room, sheet);
    while reader.next()?.is_some() {}
    Ok(())
}

// Takes off all slots, and leaves their memory.
fn clear(day: &mut Day<'_, Written>)
    ensures day { plain day.new ≡ record { room = (plain day.old).room; slots = [] } }
    ensures memory { memory_of day.new ≡ memory_of day.old }
    ensures lender { day.new.slots.ghost_name ≡ day.old.slots.ghost_name }
{
    while day.drop().is_ok() {}
}

// Adds the slots of a sheet that has been tested to an empty day.
fn fill(day: &mut Day<'_, Written>, sheet: &[u8])
    requires empty { (plain day.old).slots ≡ [] }
    requires tested { read_answer (plain day.old) sheet.now ≡ Ok tt }
    ensures day { plain day.new ≡ read_day (plain day.old) sheet.now }
    ensures memory { memory_of day.new ≡ read_memory (plain day.old) (memory_of day.old) sheet.now }
    ensures lender { day.new.slots.ghost_name ≡ day.old.slots.ghost_name }
{
    let mut reader = Reader::new(day.room(), sheet);
    // A sheet that has been tested has no fault, and the day lets its slots in.
    while let Some(slot) = reader.next().unwrap() {
        day.add(slot).unwrap();
    }
}

// Replaces the day by the slots of a sheet. A refused sheet changes nothing.
pub fn read(day: &mut Day<'_, Written>, sheet: &[u8]) -> Result<(), SheetFault>
    ensures answer { result ≡ read_answer (plain day.old) sheet.now }
    ensures day { plain day.new ≡ read_day (plain day.old) sheet.now }
    ensures memory { memory_of day.new ≡ read_memory (plain day.old) (memory_of day.old) sheet.now }
    ensures lender { day.new.slots.ghost_name ≡ day.old.slots.ghost_name }
    ensures edits { OnOk result (MadeByEdits (plain day.old) (plain day.new)) }
    ensures back { OnOk result (WritesBack (plain day.new).slots sheet.now) }
{
    test(sheet, day.room())?;
    clear(day);
    fill(day, sheet);
    Ok(())
}
