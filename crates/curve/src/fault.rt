// Why a curve cannot be made.
ghost use Rattle.std.specs.Prelude.{◌≡◌, Some, None};
ghost use Rattle.curve.specs.Answers.{refused_text};
ghost use Rattle.curve.specs.Faults.{fault_number};

use std::error::Error;
use std::fmt;

#[derive(Clone, Copy, PartialEq, Eq, Debug)]
pub enum CurveFault {
    Weight = 1,
    Target = 2,
    Edges = 3,
    Rate = 4,
    KneeCount = 5,
    KneeLevels = 6,
    KneeSteps = 7,
    Ground = 8,
    Sum = 9,
}

impl CurveFault {
    // The number by which a refusal is told.
    pub fn number(self) -> u8
        ensures { result ≡ fault_number self }
    {
        self as u8
    }
}

impl fmt::Display for CurveFault {
    ghost output = { λ x. Some (refused_text (fault_number x) None) };

    fn fmt<W: fmt::Write>(&self, f: &mut fmt::Formatter<W>) -> fmt::Result {
        let number = self.number();
        write!(f, "refused {number}")
    }
}

impl Error for CurveFault {}
