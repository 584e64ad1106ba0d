// The walk back: the levels, from the last slot to the first, by the two levels that the sweep left for each.
ghost use Rattle.std.specs.Prelude.{◌≡◌, length};
ghost use Rattle.optimum.proofs.Marks.{walk_back};

pub(crate) fn walk_back(marks: &[[u16; 2]], levels: &mut [u16])
    requires level_each { length levels.old ≡ length marks.now }
    ensures { levels.new ≡ walk_back marks.now }
{
    let mut level: u16 = 0;
    for (i, [first, second]) in marks.iter().enumerate().rev() {
        level = level.min(*second).max(*first);
        levels[i] = level;
    }
}
