// Why a call on a day is refused.
ghost use Rattle.std.specs.Prelude.{◌≡◌, Some};
ghost use Rattle.curve.specs.Answers.{refused_text};
ghost use Rattle.slots.specs.Refusals.{refusal_number, refusal_slot};

use std::error::Error;
use std::fmt;

#[derive(Clone, Copy, PartialEq, Eq, Debug)]
pub enum Refusal {
    Bounds,
    Toll,
    Full,
    NoSlot,
    Short,
    Count,
    Outside(usize),
    Lean(usize),
    Move(usize),
    Rest(usize),
}

impl Refusal {
    // The number by which a refusal is told.
    pub fn number(self) -> u8
        ensures { result ≡ refusal_number self }
    {
        match self {
            Refusal::Bounds => 10,
            Refusal::Toll => 11,
            Refusal::Full => 12,
            Refusal::NoSlot => 13,
            Refusal::Short => 14,
            Refusal::Count => 15,
            Refusal::Outside(_) => 16,
            Refusal::Lean(_) => 17,
            Refusal::Move(_) => 18,
            Refusal::Rest(_) => 19,
        }
    }

    // The slot that a refusal names.
    pub fn slot(self) -> Option<usize>
        ensures { result ≡ refusal_slot self }
    {
        match self {
            Refusal::Outside(slot)
            | Refusal::Lean(slot)
            | Refusal::Move(slot)
            | Refusal::Rest(slot) => Some(slot),
            _ => None,
        }
    }
}

impl fmt::Display for Refusal {
    ghost output = { λ x. Some (refused_text (refusal_number x) (refusal_slot x)) };

    fn fmt<W: fmt::Write>(&self, f: &mut fmt::Formatter<W>) -> fmt::Result {
        let number = self.number();
        match self.slot() {
            Some(slot) => write!(f, "refused {number} slot {slot}"),
            None => write!(f, "refused {number}"),
        }
    }
}

impl Error for Refusal {}
