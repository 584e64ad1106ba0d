// Why a text is no journal.
ghost use Rattle.std.specs.Prelude.{◌≡◌, ◌≢◌, Some};
ghost use Rattle.hex.specs.declared.error.FromHexError.TheVariants.{OutOfMemory};
ghost use Rattle.script.specs.Telling.{fault_text};
ghost use Rattle.script.specs.declared.fault.LineFault.TheVariants.{NotACall as NotACallForLine, NoMemory as NoMemoryForLine};
ghost use Rattle.script.specs.declared.fault.ScriptFault.TheVariants.{NoMemory};

use hex::FromHexError;
use std::alloc::{AllocError, AllocFailed};
use std::error::Error;
use std::fmt;

#[derive(Clone, Copy, PartialEq, Eq, Debug)]
pub enum ScriptFault {
    // Lines count from 1.
    NotACall { line: usize },
    NoMemory,
}

impl fmt::Display for ScriptFault {
    ghost output = { λ fault. Some (fault_text fault) };

    fn fmt<W: fmt::Write>(&self, f: &mut fmt::Formatter<W>) -> fmt::Result {
        match *self {
            ScriptFault::NotACall { line } => write!(f, "line {line}: not a call"),
            ScriptFault::NoMemory => write!(f, "no memory"),
        }
    }
}

impl Error for ScriptFault {}

impl From<AllocError> for ScriptFault {
    ghost from_gives = { λ _ r. r ≡ NoMemory };

    fn from(_fault: AllocError) -> ScriptFault {
        ScriptFault::NoMemory
    }
}

impl<T: Drop> From<AllocFailed<T>> for ScriptFault {
    ghost from_gives = { λ _ r. r ≡ NoMemory };

    fn from(_fault: AllocFailed<T>) -> ScriptFault {
        ScriptFault::NoMemory
    }
}

// Why one line is no call.
#[derive(Clone, Copy, PartialEq, Eq, Debug)]
pub(crate) enum LineFault {
    NotACall,
    NoMemory,
}

impl LineFault {
    // The fault of a text whose line with this number has the fault.
    pub(crate) fn at(self, line: usize) -> ScriptFault
        ensures not_a_call { self ≡ LineFault.NotACall → result ≡ ScriptFault.NotACall line }
        ensures no_memory { self ≡ LineFault.NoMemory → result ≡ ScriptFault.NoMemory }
    {
        match self {
            LineFault::NotACall => ScriptFault::NotACall { line },
            LineFault::NoMemory => ScriptFault::NoMemory,
        }
    }
}

impl From<AllocError> for LineFault {
    ghost from_gives = { λ _ r. r ≡ NoMemoryForLine };

    fn from(_fault: AllocError) -> LineFault {
        LineFault::NoMemory
    }
}

impl From<FromHexError> for LineFault {
    ghost from_gives = { λ fault r. (fault ≡ OutOfMemory → r ≡ NoMemoryForLine) × (fault ≢ OutOfMemory → r ≡ NotACallForLine) };

    fn from(fault: FromHexError) -> LineFault {
        match fault {
            FromHexError::OutOfMemory => LineFault::NoMemory,
            _ => LineFault::NotACall,
        }
    }
}
