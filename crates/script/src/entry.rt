// What a journal holds: the length of its slot memory, and its calls, whether or not their curves can be made.
ghost use Rattle.std.specs.Prelude.{◌≡◌};
ghost use Rattle.script.specs.Entries.{entry_call, plain_call, entry_fault};

use curve::fault::CurveFault;
use curve::written::Written;
use replay::call::{Buffers, Call};
use slots::slot::Slot;

#[derive(Drop)]
pub enum Entry {
    Add(Slot<Written>),
    Replace(usize, Slot<Written>),
    Drop,
    Sheet(Vec<u8>),
    Price(Vec<u16>),
    Plan(Buffers),
    Check(Vec<u16>, Vec<i64>),
}

#[derive(Drop)]
pub struct Script {
    pub slots: usize,
    pub entries: Vec<Entry>,
}

impl Entry {
    // Why the curve of an entry cannot be made.
    pub fn fault(&self) -> Option<CurveFault>
        ensures { result ≡ entry_fault self.now }
    {
        match self {
            Entry::Add(slot) | Entry::Replace(_, slot) => slot.curve.fault(),
            _ => None,
        }
    }
}

// The call that an entry stands for.
impl<'e> From<&'e Entry> for Call<'e, Written> {
    ghost from_gives = { λ entry call. plain_call call ≡ entry_call entry.now };

    fn from(entry: &'e Entry) -> Call<'e, Written> {
        match entry {
            Entry::Add(slot) => Call::Add(*slot),
            Entry::Replace(place, slot) => Call::Replace(*place, *slot),
            Entry::Drop => Call::Drop,
            Entry::Sheet(bytes) => Call::Sheet(bytes),
            Entry::Price(levels) => Call::Price(levels),
            Entry::Plan(buffers) => Call::Plan(*buffers),
            Entry::Check(levels, leans) => Call::Check(levels, leans),
        }
    }
}
