// Opening a day, and its edits: each writes one slot whole or nothing at all.
ghost use Rattle.std.specs.Prelude.{◌≡◌, ◌-◌, length, None};
ghost use Rattle.day.specs.Edits.{add_refusal, replace_refusal, drop_refusal, add_slot, replace_slot, drop_slot};
ghost use Rattle.slots.specs.Refusals.{told};
ghost use Rattle.day.specs.View.{plain, empty_day, wrote};

use crate::day::Day;
use slots::limits::MOST_SLOTS;
use slots::refusal::Refusal;
use slots::slot::Slot;

impl<'a, C: Copy> Day<'a, C> {
    // A day with no slots, over memory that stays as it is.
    pub fn open(memory: &'a mut [Slot<C>]) -> Day<'a, C>
        ensures day { plain result ≡ empty_day memory.old }
        ensures memory { result.slots.now ≡ memory.old }
        ensures lender { result.slots.ghost_name ≡ memory.entry.ghost_name }
    {
        Day {
            slots: memory,
            count: 0,
        }
    }

    // How many slots the day can hold.
    pub fn room(&self) -> usize
        ensures { result ≡ (plain self.now).room }
    {
        MOST_SLOTS.min(self.slots.len())
    }

    // The slots of the day.
    pub fn slots(&self) -> &[Slot<C>]
        ensures { result.now ≡ (plain self.now).slots }
    {
        &self.slots[0..self.count]
    }

    // Puts a slot at the end.
    pub fn add(&mut self, slot: Slot<C>) -> Result<(), Refusal>
        ensures answer { result ≡ told (add_refusal (plain self.old) slot) tt }
        ensures day { plain self.new ≡ add_slot (plain self.old) slot }
        ensures memory { self.new.slots.now ≡ wrote (add_refusal (plain self.old) slot) self.old.slots.now self.old.count slot }
        ensures lender { self.new.slots.ghost_name ≡ self.old.slots.ghost_name }
    {
        slot.fits()?;
        let count = self.count;
        if count >= self.room() {
            return Err(Refusal::Full);
        }
        self.slots[count] = slot;
        self.count += 1;
        Ok(())
    }

    // Writes one slot anew.
    pub fn replace(&mut self, place: usize, slot: Slot<C>) -> Result<(), Refusal>
        ensures answer { result ≡ told (replace_refusal (plain self.old) place slot) tt }
        ensures day { plain self.new ≡ replace_slot (plain self.old) place slot }
        ensures memory { self.new.slots.now ≡ wrote (replace_refusal (plain self.old) place slot) self.old.slots.now place slot }
        ensures lender { self.new.slots.ghost_name ≡ self.old.slots.ghost_name }
    {
        if place >= self.count {
            return Err(Refusal::NoSlot);
        }
        slot.fits()?;
        self.slots[place] = slot;
        Ok(())
    }

    // Takes off the last slot and leaves its memory.
    #[tactic(auto, using(crate::proofs::Fronts::proper_fewer))]
    pub fn drop(&mut self) -> Result<(), Refusal>
        ensures answer { result ≡ told (drop_refusal (plain self.old)) tt }
        ensures day { plain self.new ≡ drop_slot (plain self.old) }
        ensures memory { self.new.slots.now ≡ self.old.slots.now }
        ensures lender { self.new.slots.ghost_name ≡ self.old.slots.ghost_name }
    {
        if self.count == 0 {
            return Err(Refusal::NoSlot);
        }
        self.count -= 1;
        Ok(())
    }
}
