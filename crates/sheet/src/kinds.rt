// The kinds of records: the byte of each, and the length of its body.
ghost use Rattle.std.specs.Prelude.{◌≡◌};
ghost use Rattle.std.specs.Option.{ok_or};
ghost use Rattle.sheet.specs.Kinds.{kind_of, kind_of_curve, kind_byte, body_length};
ghost use Rattle.sheet.specs.declared.fault.RecordFault.TheVariants.{UnknownKind};

use crate::fault::RecordFault;
use curve::written::Written;

// Each kind counts as its byte.
#[derive(Clone, Copy)]
pub(crate) enum Kind {
    Square = 1,
    Band = 2,
    Knees = 3,
}

impl TryFrom<u8> for Kind {
    type Error = RecordFault;

    ghost try_from_gives = { λ byte kind. kind ≡ ok_or (kind_of byte) UnknownKind };

    fn try_from(byte: u8) -> Result<Kind, RecordFault> {
        match byte {
            1 => Ok(Kind::Square),
            2 => Ok(Kind::Band),
            3 => Ok(Kind::Knees),
            _ => Err(RecordFault::UnknownKind),
        }
    }
}

impl From<&Written> for Kind {
    ghost from_gives = { λ curve kind. kind ≡ kind_of_curve curve.now };

    fn from(curve: &Written) -> Kind {
        match *curve {
            Written::Square { .. } => Kind::Square,
            Written::Band { .. } => Kind::Band,
            Written::Knees { .. } => Kind::Knees,
        }
    }
}

impl Kind {
    pub(crate) fn byte(self) -> u8
        ensures { result ≡ kind_byte self }
    {
        self as u8
    }

    pub(crate) fn body_length(self) -> usize
        ensures { result ≡ body_length self }
    {
        match self {
            Kind::Square => 18,
            Kind::Band => 24,
            Kind::Knees => 61,
        }
    }
}
