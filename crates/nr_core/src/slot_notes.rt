//! What the writer notes of each slot.
ghost use Rattle.std.specs.Prelude.{◌≡◌, length};
ghost use Rattle.nr_core.specs.SlotLists.{CountsFewer, CountsMore};
ghost use Rattle.nr_core.specs.SlotNotes.{reaped_of, retirements_of};

/// What is noted of a slot: both in one place, since who takes or retires a slot mostly writes both.
#[derive(Clone, Copy)]
pub struct SlotNote {
    /// Whether the set in it was given out.
    pub reaped: bool,
    /// How often it is retired: two, once that is not known any more.
    pub retirements: u8,
}

// Counts that a slot is retired once more: to two, which tells nothing from then on.
pub fn one_more(notes: &mut Vec<SlotNote>, slot: u32)
    ensures length { length notes.new.items ≡ length notes.old.items }
    ensures reaped { reaped_of notes.new.items ≡ reaped_of notes.old.items }
    ensures counts { CountsMore slot (retirements_of notes.old.items) (retirements_of notes.new.items) }
{
    if let Some(note) = notes.get_mut(slot as usize) {
        if note.retirements < 2 {
            note.retirements += 1;
        }
    }
}

// Counts that it is retired once less.
pub fn one_fewer(notes: &mut Vec<SlotNote>, slot: u32)
    ensures length { length notes.new.items ≡ length notes.old.items }
    ensures reaped { reaped_of notes.new.items ≡ reaped_of notes.old.items }
    ensures counts { CountsFewer slot (retirements_of notes.old.items) (retirements_of notes.new.items) }
{
    if let Some(note) = notes.get_mut(slot as usize) {
        if note.retirements == 1 {
            note.retirements = 0;
        }
    }
}
