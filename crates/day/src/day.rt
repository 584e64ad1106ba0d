// A day over lent slot memory: its slots are the first `count` of that memory.
ghost use Rattle.std.specs.Prelude.{◌≡◌, ◌≤◌, true, length, take};
ghost use Rattle.slots.specs.Limits.{most_slots};
ghost use Rattle.slots.specs.Slots.{all_proper};

use slots::slot::Slot;

#[derive(Drop)]
pub struct Day<'a, C> {
    pub(crate) slots: &'a mut [Slot<C>],
    pub(crate) count: usize,
    ghost stored: { count ≤ length slots.now },
    ghost few: { count ≤ most_slots },
    ghost proper: { all_proper (take count slots.now) ≡ true },
}
