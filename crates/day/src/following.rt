// Following a checked plan: its levels once each, in slot order.
ghost use Rattle.std.specs.Prelude.{◌≡◌, length};
ghost use Rattle.std.specs.Slice.Iter.{iter_rest};
ghost use Rattle.day.specs.Followed.{first_of, rest_of};

use crate::check::CheckedPlan;
use std::slice::Iter;

// The levels that were not handed out yet.
#[derive(Drop)]
pub struct Following<'l> {
    left: Iter<'l, u16>,
}

impl<'l> CheckedPlan<'l> {
    // Gives up the plan to begin following it.
    pub fn follow(self) -> Following<'l>
        ensures { iter_rest result.left ≡ self.entry.levels.now }
    {
        Following {
            left: self.levels.iter(),
        }
    }
}

impl<'l> Following<'l> {
    // The next level; none after the last, every time.
    pub fn next_level(&mut self) -> Option<u16>
        ensures level { result ≡ first_of (iter_rest self.old.left) }
        ensures left { iter_rest self.new.left ≡ rest_of (iter_rest self.old.left) }
    {
        self.left.next().copied()
    }

    // How many levels were not handed out.
    pub fn end(self) -> usize
        ensures { result ≡ length (iter_rest self.entry.left) }
    {
        self.left.len()
    }
}
