// The slots of a day: few enough, and each within the rules for bounds and tolls.
ghost use Rattle.std.specs.Prelude.{◌≡◌, ◌≤◌, true, length};
ghost use Rattle.slots.specs.Limits.{most_slots};
ghost use Rattle.slots.specs.Slots.{all_proper};

use crate::slot::Slot;

#[derive(Drop)]
pub struct Slots<'a, C> {
    pub list: &'a [Slot<C>],
    ghost few: { length list.now ≤ most_slots },
    ghost proper: { all_proper list.now ≡ true },
}
