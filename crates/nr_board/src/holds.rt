//! How a reader finds a key and holds its set: by its own word where it has one, and else by the
//! counts.
ghost use Rattle.std.specs.Prelude.{ℕ, ◌≡◌, ◌≢◌, ◌<◌, ◌≤◌, ◌⊎◌, [], ◌∷◌, suc, false};
ghost use Rattle.nr_words.specs.KeyWords.{is_filled, slot_of};
ghost use Rattle.nr_core.specs.Slots.{content};
ghost use Rattle.nr_core.specs.Marks.{acted};
ghost use Rattle.nr_board.specs.Callers.{Rests, token};
ghost use Rattle.nr_board.specs.Holds.{HeldAs, HoldsAfter, HoldsOn, MovesTo, TriesWord, finds_by_word};
ghost use Rattle.nr_board.specs.Plays.{IsIdle};
ghost use Rattle.nr_board.specs.Seats.{HoldsAt, IdlesAt};
ghost use Rattle.nr_board.specs.Views.{caller_number, rows_held, view_of};
ghost use Rattle.nr_board.specs.WordPlays.{HasWord, HoldsByWord, IsOwn};

use crate::board::{Board, Own, Seat};
use crate::only_proved::only_proved;
use nr_words::{names, parts};

/// A set that a reader holds: its slot, how many rows it has, where the slot's first content word stands,
/// and what the reader's own word says, which is 0 where a count holds the set. It has no padding, since
/// that would be copied, too.
#[derive(Clone, Copy)]
pub struct Held {
    pub slot: u32,
    pub count: u32,
    pub begin: u64,
    pub says: u64,
}

impl Board {
    /// A reader that holds nothing finds a key and holds its set; `None` where the key is a hole.
    #[inline(always)]
    pub fn hold_key(&self, seat: &mut Seat, own: Own, key: u32) -> Option<Held>
        requires reader { IdlesAt self.now seat.old }
        requires number { (token seat.old).number ≡ suc own.index }
        requires place { IsOwn self.now own }
        requires key { key < self.now.shape.keys }
        ensures { HoldsAfter 0 (finds_by_word (token seat.old)) self.now key (view_of seat.old).marks seat.old seat.new result }
    {
        if own.index >= self.announcers() {
            return self.hold_by_count(seat, key);
        }
        let word = self.look_at_key(seat, key);
        if !parts(word).filled {
            return None;
        }
        self.hold_named(seat, own, key, word)
    }

    /// A reader that holds a set by its word finds a key and holds its set, by the key's word, which it
    /// loaded. What it held is let go by the announcement of the next slot, or, at a hole, by a clear
    /// before it finds anew.
    #[inline(always)]
    pub fn move_to(&self, seat: &mut Seat, own: Own, key: u32, word: u64) -> Option<Held>
        requires own { (token seat.old).table ≡ self.now }
        requires place { IsOwn self.now own }
        requires word { HasWord own.index (view_of seat.old) }
        requires holds { HoldsByWord self.now.shape (view_of seat.old) }
        requires key { key < self.now.shape.keys }
        ensures { MovesTo self.now key word seat.old seat.new result }
    {
        if parts(word).filled {
            return self.hold_named(seat, own, key, word);
        }
        self.clear(seat, own);
        self.hold_key(seat, own, key)
    }

    /// A reader lets go what it holds, in 1 step.
    #[inline(always)]
    pub fn let_go(&self, seat: &mut Seat, own: Own, held: Held)
        requires held { HeldAs self.now held seat.old }
        requires number { (token seat.old).number ≡ suc own.index }
        requires place { IsOwn self.now own }
        ensures reader { IdlesAt self.now seat.new }
        ensures rests { Rests 1 (token seat.old) (token seat.new) }
        ensures marks { (view_of seat.new).marks ≡ acted (view_of seat.old).marks (view_of seat.old).marks.put }
    {
        if held.says > 0 {
            self.clear(seat, own);
        } else {
            self.depart(seat, held.begin);
        }
    }

    // A reader that has a word finds a key by the word that its look found.
    #[inline(always)]
    fn hold_named(&self, seat: &mut Seat, own: Own, key: u32, word: u64) -> Option<Held>
        requires own { (token seat.old).table ≡ self.now }
        requires place { IsOwn self.now own }
        requires word { HasWord own.index (view_of seat.old) }
        requires free { IsIdle (view_of seat.old).role ⊎ HoldsByWord self.now.shape (view_of seat.old) }
        requires key { key < self.now.shape.keys }
        ensures { HoldsOn 1 (suc (slot_of word) ∷ []) self.now key seat.old seat.new result }
    {
        match self.try_word(seat, own, key, word) {
            Ok(answer) => answer,
            Err(newer) => self.hold_newer(seat, own, key, newer),
        }
    }

    // The same by the newer word that a first try found, and then by the count. A call would have each find
    // clear the room for its answer before the swap, which waits for stores.
    #[inline(always)]
    fn hold_newer(&self, seat: &mut Seat, own: Own, key: u32, word: u64) -> Option<Held>
        requires own { (token seat.old).table ≡ self.now }
        requires place { IsOwn self.now own }
        requires word { HasWord own.index (view_of seat.old) }
        requires idle { IsIdle (view_of seat.old).role }
        requires key { key < self.now.shape.keys }
        ensures { (first : ℕ) → first ≢ slot_of word → HoldsOn 3 (suc first ∷ suc (slot_of word) ∷ []) self.now key seat.old seat.new result }
    {
        if let Ok(answer) = self.try_word(seat, own, key, word) {
            return answer;
        }
        self.clear(seat, own);
        self.hold_by_count(seat, key)
    }

    // A reader announces the slot that a key's word names, and looks at the key again: what it holds
    // then, or the key's newer word. At a hole it says nothing any more.
    #[inline(always)]
    fn try_word(&self, seat: &mut Seat, own: Own, key: u32, word: u64) -> Result<Option<Held>, u64>
        requires own { (token seat.old).table ≡ self.now }
        requires place { IsOwn self.now own }
        requires word { HasWord own.index (view_of seat.old) }
        requires free { IsIdle (view_of seat.old).role ⊎ HoldsByWord self.now.shape (view_of seat.old) }
        requires key { key < self.now.shape.keys }
        ensures { TriesWord self.now key word seat.old seat.new result }
    {
        let slot = parts(word).slot;
        let begin = self.content(slot);
        self.announce(seat, own, slot);
        let newer = self.confirm(seat, own, slot, key);
        if names(newer, slot) {
            return Ok(Some(self.held_at(seat, slot, begin, u64::from(slot) + 1)));
        }
        if parts(newer).filled {
            return Err(newer);
        }
        self.clear(seat, own);
        Ok(None)
    }

    // A reader that holds nothing arrives at a key.
    #[inline(always)]
    fn hold_by_count(&self, seat: &mut Seat, key: u32) -> Option<Held>
        requires reader { IdlesAt self.now seat.old }
        requires key { key < self.now.shape.keys }
        ensures { HoldsAfter 0 false self.now key (view_of seat.old).marks seat.old seat.new result }
    {
        let found = parts(self.arrive(seat, key));
        if !found.filled {
            return None;
        }
        let begin = self.content(found.slot);
        Some(self.held_at(seat, found.slot, begin, 0))
    }

    // What a reader holds, by the slot and by what its word says: it reads how many rows there are.
    #[inline(always)]
    fn held_at(&self, seat: &mut Seat, slot: u32, begin: u64, says: u64) -> Held
        requires reader { HoldsAt self.now begin seat.old }
        requires begin { begin ≡ content self.now.shape slot 0 }
        requires says { (view_of seat.old).says ≡ says }
        requires said { 0 < says → says ≡ suc slot }
        requires worded { 0 < says → caller_number (view_of seat.old).role ≤ self.now.announcers }
        ensures held { HeldAs self.now result seat.new }
        ensures says { result.says ≡ says }
        ensures rows { rows_held (view_of seat.new).role ≡ rows_held (view_of seat.old).role }
        ensures rests { Rests 1 (token seat.old) (token seat.new) }
        ensures marks { (view_of seat.new).marks ≡ (view_of seat.old).marks }
    {
        only_proved(self.rows());
        let count = self.read(seat, begin, 0) as u32;
        Held {
            slot,
            count,
            begin,
            says,
        }
    }
}
