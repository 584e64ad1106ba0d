// Why a record, and so a sheet, is refused.
ghost use Rattle.std.specs.Prelude.{◌≡◌, Some};
ghost use Rattle.sheet.specs.Faults.{record_number, fault_text};
ghost use Rattle.sheet.specs.declared.fault.RecordFault.TheVariants.{Curve, Refused};

use curve::fault::CurveFault;
use slots::refusal::Refusal;
use std::error::Error;
use std::fmt;

// Why no slot can be taken from a record.
#[derive(Clone, Copy, PartialEq, Eq, Debug)]
pub enum RecordFault {
    UnknownKind,
    CutShort,
    UnusedKnee,
    Curve(CurveFault),
    Refused(Refusal),
}

// A record's fault, with the slot it was to be and the place of its kind byte.
#[derive(Clone, Copy, PartialEq, Eq, Debug)]
pub struct SheetFault {
    pub fault: RecordFault,
    pub slot: usize,
    pub place: usize,
}

impl RecordFault {
    // The number by which a refusal is told.
    pub fn number(self) -> u8
        ensures { result ≡ record_number self }
    {
        match self {
            RecordFault::UnknownKind => 20,
            RecordFault::CutShort => 21,
            RecordFault::UnusedKnee => 22,
            RecordFault::Curve(fault) => fault.number(),
            RecordFault::Refused(refusal) => refusal.number(),
        }
    }
}

impl SheetFault {
    // The number by which a refusal is told.
    pub fn number(self) -> u8
        ensures { result ≡ record_number self.fault }
    {
        self.fault.number()
    }
}

impl From<CurveFault> for RecordFault {
    ghost from_gives = { λ fault r. r ≡ Curve fault };

    fn from(fault: CurveFault) -> RecordFault {
        RecordFault::Curve(fault)
    }
}

impl From<Refusal> for RecordFault {
    ghost from_gives = { λ refusal r. r ≡ Refused refusal };

    fn from(refusal: Refusal) -> RecordFault {
        RecordFault::Refused(refusal)
    }
}

impl fmt::Display for SheetFault {
    ghost output = { λ f. Some (fault_text f) };

    fn fmt<W: fmt::Write>(&self, f: &mut fmt::Formatter<W>) -> fmt::Result {
        let number = self.number();
        let slot = self.slot;
        let place = self.place;
        write!(f, "refused {number} slot {slot} byte {place}")
    }
}

impl Error for SheetFault {}
