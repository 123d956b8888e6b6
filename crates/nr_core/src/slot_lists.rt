//! What the writer keeps beside the words: the slots that no key names, each key's ticket number, and which
//! slots were reaped.
ghost use Rattle.std.specs.Prelude.{◌≡◌, ◌<◌, ◌≤◌, ◌++◌, [], ◌∷◌, false, length, remove, replicate, slice_index, slice_index_or, slice_set, IfOk};
ghost use Rattle.nr_core.specs.States.{no_retired};
ghost use Rattle.nr_core.specs.Writer.{unnamed};
ghost use Rattle.nr_core.specs.SlotLists.{AreReaped, TakesFresh, TakesOldest, all_taken};
ghost use Rattle.nr_core.specs.SlotNotes.{reaped_of};

use crate::calls::NoSlot;
use crate::places::Retired;
use crate::shape::Shape;
use crate::slot_notes::{SlotNote, one_fewer, one_more};
use nr_words::parts;
use std::alloc::{AllocError, Global};
use std::collections::VecDeque;
use std::marker::Model;

/// The writer's lists of slots and of ticket numbers. Slots from `fresh` on were never taken; the
/// retired ones, oldest first, wait until their readers have departed. They are a queue, so that to
/// take the oldest costs the same whatever their number, and it has room to retire all slots. A
/// filled key's word has its slot, so its ticket number is here alone. The set in a reaped slot was
/// given out, and a call that takes the slot gives out none. Most reaped slots are the oldest retired
/// ones, and who looks for others passes those by (`passed`). For that it is counted how often each
/// slot is retired, which is once at most: the set that is put in another is no reason to look again.
#[derive(Drop)]
pub struct SlotLists {
    slots: u32,
    fresh: u32,
    passed: usize,
    retired: VecDeque<Retired>,
    numbers: Vec<u64>,
    notes: Vec<SlotNote>,
}

impl Model for SlotLists {
    ghost use Rattle.std.specs.Prelude.{◌≡◌, ◌≤◌, length};
    ghost use Rattle.std.specs.VecDeque.{deque_capacity};
    ghost use Rattle.nr_core.specs.SlotLists.{AreReaped, CountsRetirements, SlotLists as Slots};
    ghost use Rattle.nr_core.specs.SlotNotes.{reaped_of, retirements_of};

    ghost Value = { Slots };

    ghost view = { λ lists. record { slots = lists.slots; fresh = lists.fresh; retired = lists.retired.items; numbers = lists.numbers.items; reaped = reaped_of lists.notes.items } };

    ghost invariant = { λ lists. (lists.slots ≤ deque_capacity lists.retired)
        × (length lists.notes.items ≡ lists.slots) × (lists.fresh ≤ lists.slots)
        × CountsRetirements lists.slots lists.retired.items (retirements_of lists.notes.items)
        × AreReaped lists.passed lists.retired.items (reaped_of lists.notes.items) };
}

impl SlotLists {
    /// All the slots of a new map, and the first ticket number for each key.
    pub fn open(alloc: Global, shape: &Shape) -> Result<SlotLists, AllocError>
        ensures { IfOk result (λ lists. lists ≡ record { slots = shape.now.slots; fresh = 0; retired = []; numbers = replicate shape.now.keys shape.now.first_number; reaped = replicate shape.now.slots false }) }
    {
        let retired = VecDeque::with_capacity(alloc, shape.slots as usize)?;
        let numbers = vec![in alloc; shape.first_number; shape.keys as usize]?;
        let note = SlotNote {
            reaped: false,
            retirements: 0,
        };
        let notes = vec![in alloc; note; shape.slots as usize]?;
        Ok(SlotLists {
            slots: shape.slots,
            fresh: 0,
            passed: 0,
            retired,
            numbers,
            notes,
        })
    }

    /// Takes the next slot that was never taken.
    pub fn take_fresh(&mut self) -> Option<u32>
        ensures { TakesFresh self.old self.new result }
    {
        if self.fresh >= self.slots {
            return None;
        }
        let slot = self.fresh;
        self.fresh += 1;
        Some(slot)
    }

    /// How many slots were ever taken: those before the next that was never taken.
    pub fn taken(&self) -> u32
        ensures fresh { result ≡ self.now.fresh }
        ensures bounded { result ≤ self.now.slots }
    {
        self.fresh
    }

    /// How many slots are retired.
    pub fn retired_len(&self) -> usize
        ensures { result ≡ length self.now.retired }
    {
        self.retired.len()
    }

    /// The retired slot at that index, of which the oldest has index 0.
    pub fn retired_at(&self, place: usize) -> Retired
        requires { place < length self.now.retired }
        ensures { result ≡ slice_index_or self.now.retired place no_retired }
    {
        self.retired[place]
    }

    /// Takes the retired slot at that index; the others keep their order.
    pub fn take_retired(&mut self, place: usize)
        requires { place < length self.old.retired }
        ensures { self.new ≡ record self.old { retired = remove self.old.retired place } }
    {
        let entry = self.retired[place];
        self.retired.remove(place);
        one_fewer(&mut self.notes, entry.slot);
        if place < self.passed {
            self.passed -= 1;
        }
    }

    /// Takes the oldest retired slot, if there is one. It costs less than to look at it and then
    /// take it.
    pub fn take_oldest(&mut self) -> Option<Retired>
        ensures { TakesOldest self.old self.new result }
    {
        let oldest = self.retired.pop_front()?;
        one_fewer(&mut self.notes, oldest.slot);
        self.passed = self.passed.saturating_sub(1);
        Some(oldest)
    }

    /// Puts the slot that was the oldest retired one back to where it was.
    pub fn put_back(&mut self, oldest: Retired)
        requires { length self.old.retired < self.old.slots }
        ensures { self.new ≡ record self.old { retired = oldest ∷ self.old.retired } }
    {
        one_more(&mut self.notes, oldest.slot);
        self.retired.push_front_reserved(oldest);
        self.passed = 0;
    }

    /// Retires the slot that a key's old word names, if it names one.
    pub fn retire(&mut self, word: u64)
        requires { length self.old.retired < self.old.slots }
        ensures { self.new ≡ record self.old { retired = self.old.retired ++ unnamed word } }
    {
        let old = parts(word);
        if old.filled {
            one_more(&mut self.notes, old.slot);
            self.retired.push_back_reserved(Retired {
                slot: old.slot,
                arrivals: old.arrivals,
            });
        }
    }

    /// The key's ticket number.
    pub fn number(&self, key: u32) -> u64
        requires { key < length self.now.numbers }
        ensures { result ≡ slice_index self.now.numbers key }
    {
        self.numbers[key as usize]
    }

    /// Gives the key another ticket number.
    pub fn renumber(&mut self, key: u32, number: u64)
        requires { key < length self.old.numbers }
        ensures { self.new ≡ record self.old { numbers = slice_set self.old.numbers key number } }
    {
        self.numbers[key as usize] = number;
    }

    /// Whether the set in the slot was given out already.
    pub fn is_reaped(&self, slot: u32) -> bool
        requires { slot < self.now.slots }
        ensures { result ≡ slice_index_or self.now.reaped slot false }
    {
        self.notes[slot as usize].reaped
    }

    /// Notes whether the set in the slot was given out.
    pub fn set_reaped(&mut self, slot: u32, reaped: bool)
        requires { slot < self.old.slots }
        ensures { self.new ≡ record self.old { reaped = slice_set self.old.reaped slot reaped } }
    {
        let note = SlotNote {
            reaped,
            ..self.notes[slot as usize]
        };
        self.notes[slot as usize] = note;
        let known = if reaped || note.retirements == 0 {
            self.passed
        } else {
            0
        };
        // Two, so that those are caught up with that a reader held meanwhile.
        let next = pass_one(&self.retired, &self.notes, known);
        self.passed = pass_one(&self.retired, &self.notes, next);
    }

    /// How many of the oldest retired slots were reaped, at least.
    pub fn passed(&self) -> usize
        ensures range { result ≤ length self.now.retired }
        ensures reaped { AreReaped result self.now.retired self.now.reaped }
    {
        self.passed
    }

    /// How many slots are named and how many retired, where every slot was taken.
    pub fn counts(&self) -> NoSlot
        requires { length self.now.retired ≤ self.now.slots }
        ensures { result ≡ all_taken self.now }
    {
        let slots = self.slots;
        let held = self.retired.len() as u32;
        NoSlot {
            live: slots - held,
            held,
        }
    }
}

// Of so many of the first retired slots it is known that they were reaped: of one more, if it was.
fn pass_one(retired: &VecDeque<Retired>, notes: &Vec<SlotNote>, known: usize) -> usize
    requires { AreReaped known retired.now.items (reaped_of notes.now.items) }
    ensures { AreReaped result retired.now.items (reaped_of notes.now.items) }
{
    if known < retired.len() {
        let place = retired[known].slot as usize;
        if place < notes.len() && notes[place].reaped {
            return known + 1;
        }
    }
    known
}
