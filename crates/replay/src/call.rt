// The calls that a run is made of, and the moment that each makes.
ghost use Rattle.std.specs.Prelude.{Some, codes};

use crate::answer::{Answer, CallFault};
use slots::slot::Slot;
use std::error::Error;
use std::fmt;

// The lengths of the buffers that are lent for a plan.
#[derive(Clone, Copy)]
pub struct Buffers {
    pub levels: usize,
    pub leans: usize,
    pub table: usize,
    pub marks: usize,
}

#[derive(Clone, Copy)]
pub enum Call<'c, C> {
    Add(Slot<C>),
    Replace(usize, Slot<C>),
    Drop,
    Sheet(&'c [u8]),
    Price(&'c [u16]),
    Plan(Buffers),
    Check(&'c [u16], &'c [i64]),
}

// One call's answer, and the day's slots after it.
#[derive(Drop)]
pub struct Moment<C> {
    pub answer: Result<Answer, CallFault>,
    pub slots: Vec<Slot<C>>,
}

// There was no memory for a moment: so many calls were made.
#[derive(Clone, Copy, Debug)]
pub struct Unfinished {
    pub made: usize,
}

impl fmt::Display for Unfinished {
    ghost output = { λ _. Some (codes "no memory") };

    fn fmt<W: fmt::Write>(&self, f: &mut fmt::Formatter<W>) -> fmt::Result {
        write!(f, "no memory")
    }
}

impl Error for Unfinished {}
