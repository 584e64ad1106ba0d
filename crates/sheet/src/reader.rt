// The records of a sheet that are not read yet.
ghost use Rattle.std.specs.Prelude.{◌≡◌, ◌≤◌, length, MatchResult};
ghost use Rattle.sheet.specs.Records.{Leaves};
ghost use Rattle.sheet.specs.SheetFaults.{record_in};

use crate::fault::{RecordFault, SheetFault};
use crate::record::record;
use curve::written::Written;
use slots::refusal::Refusal;
use slots::slot::Slot;

// Reads a sheet for a day that can hold so many slots.
#[derive(Drop)]
pub(crate) struct Reader<'a> {
    room: usize,
    slot: usize,
    sheet: &'a [u8],
    left: &'a [u8],
    ghost within: { length left.now ≤ length sheet.now },
}

// The record that is to be a slot of a day that can hold so many.
fn record_for(
    room: usize,
    slot: usize,
    kind: u8,
    rest: &[u8],
) -> Result<(Slot<Written>, &[u8]), RecordFault>
    ensures { MatchResult result (λ taken. Leaves rest.now (record_in room slot kind rest.now) taken.0 taken.1.now) (λ fault. record_in room slot kind rest.now ≡ Err fault) }
{
    if slot >= room {
        return Err(RecordFault::from(Refusal::Full));
    }
    record(kind, rest)
}

impl<'a> Reader<'a> {
    ghost use Rattle.sheet.specs.Reading.{left_in, Gives};
    ghost use Rattle.sheet.specs.Sheets.{decoded};

    pub(crate) fn new(room: usize, sheet: &'a [u8]) -> Reader<'a>
        ensures { left_in result ≡ decoded room sheet.now }
    {
        Reader {
            room,
            slot: 0,
            sheet,
            left: sheet,
        }
    }

    // The slot of the next record, unless none is left.
    pub(crate) fn next(&mut self) -> Result<Option<Slot<Written>>, SheetFault>
        ensures { Gives self.old result self.new }
    {
        let [kind, rest @ ..] = self.left else {
            return Ok(None);
        };
        let slot = self.slot;
        let place = self.sheet.len() - self.left.len();
        let taken = record_for(self.room, slot, *kind, rest);
        let (taken, left) = taken.map_err(|fault| SheetFault { fault, slot, place })?;
        self.slot += 1;
        self.left = left;
        Ok(Some(taken))
    }
}
