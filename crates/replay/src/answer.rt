// What a call is answered, and what is said of it.
ghost use Rattle.std.specs.Prelude.{◌≡◌, ℕ, List, Some, Ok, Err};
ghost use Rattle.std.specs.Fmt.{WritesOnOk};
ghost use Rattle.replay.specs.Telling.{spaced, answer_text};
ghost use Rattle.replay.specs.declared.answer.CallFault.TheVariants.{Refused, Unread};

use sheet::fault::SheetFault;
use slots::refusal::Refusal;
use std::error::Error;
use std::fmt;

// What is answered to a call that is not refused.
#[derive(Drop)]
pub enum Answer {
    Done,
    Cost(i64),
    Planned {
        cost: i64,
        levels: Vec<u16>,
        leans: Vec<i64>,
    },
}

// Why a call is refused: by a rule of the day, or as a sheet that cannot be read.
#[derive(Clone, Copy, PartialEq, Eq, Debug)]
pub enum CallFault {
    Refused(Refusal),
    Unread(SheetFault),
}

impl From<Refusal> for CallFault {
    ghost from_gives = { λ refusal r. r ≡ Refused refusal };

    fn from(refusal: Refusal) -> CallFault {
        CallFault::Refused(refusal)
    }
}

impl From<SheetFault> for CallFault {
    ghost from_gives = { λ fault r. r ≡ Unread fault };

    fn from(fault: SheetFault) -> CallFault {
        CallFault::Unread(fault)
    }
}

// Writes a space and a number, for each number.
fn write_spaced<W: fmt::Write, N: fmt::Display>(
    f: &mut fmt::Formatter<W>,
    numbers: &[N],
) -> fmt::Result
    ensures { (write : N → List ℕ) → ((x : N) → N.Display.output x ≡ Some (write x)) → WritesOnOk W.write_str_gives f.old result (spaced write numbers.now) f.new }
{
    for number in numbers {
        write!(f, " {number}")?;
    }
    Ok(())
}

impl fmt::Display for Answer {
    ghost output = { λ answer. Some (answer_text (Ok answer)) };

    fn fmt<W: fmt::Write>(&self, f: &mut fmt::Formatter<W>) -> fmt::Result {
        match self {
            Answer::Done => write!(f, "ok"),
            Answer::Cost(cost) => write!(f, "cost {cost}"),
            Answer::Planned {
                cost,
                levels,
                leans,
            } => {
                write!(f, "cost {cost} levels")?;
                write_spaced(f, levels)?;
                write!(f, " leans")?;
                write_spaced(f, leans)
            }
        }
    }
}

impl fmt::Display for CallFault {
    ghost output = { λ fault. Some (answer_text (Err fault)) };

    fn fmt<W: fmt::Write>(&self, f: &mut fmt::Formatter<W>) -> fmt::Result {
        match self {
            CallFault::Refused(refusal) => write!(f, "{refusal}"),
            CallFault::Unread(fault) => write!(f, "{fault}"),
        }
    }
}

impl Error for CallFault {}
