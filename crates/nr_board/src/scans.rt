//! How a search hears which of the retired slots no reader announces.
ghost use Rattle.std.specs.Prelude.{◌≡◌, ◌<◌, ◌≤◌, IfOk, false, length, replicate, slice_index_or, slice_set, true};
ghost use Rattle.nr_board.specs.SearchSeats.{SearchesIn};
ghost use Rattle.nr_board.specs.Flags.{Flagged, OthersFlagged};
ghost use Rattle.nr_board.specs.Views.{view_of};
ghost use Rattle.nr_board.specs.WholeScans.{AreInside, NoneFlagged, RestsHearing, ScannedTo, announced, is_flagged};
ghost use Rattle.nr_board.specs.WriterSeats.{RestsAt};

use crate::board::{Board, Seat};
use nr_core::SlotLists;
use std::alloc::{AllocError, Global};
use std::marker::Model;

/// A flag for each slot that isn't known to be heard: all but the retired ones that the last scan found
/// announced by no reader. Where no reader has a word there are none.
#[derive(Drop)]
pub struct ScanFlags {
    flags: Vec<bool>,
}

impl Model for ScanFlags {
    ghost use Rattle.std.specs.Prelude.{Bool, List};

    ghost Value = { List Bool };

    ghost view = { λ scan. scan.flags.items };
}

impl ScanFlags {
    /// Of so many slots none is heard.
    pub fn open(alloc: Global, slots: u32) -> Result<ScanFlags, AllocError>
        ensures { IfOk result (λ flags. flags ≡ replicate slots true) }
    {
        let flags = vec![in alloc; true; slots as usize]?;
        Ok(ScanFlags { flags })
    }

    /// Whether a slot is flagged.
    pub fn is_flagged(&self, slot: u32) -> bool
        requires { slot < length self.now }
        ensures { result ≡ slice_index_or self.now slot true }
    {
        self.flags[slot as usize]
    }

    /// A slot into which a set was put isn't heard any more. Where there are no flags none is set.
    pub fn flag(&mut self, slot: u32)
        ensures { self.new ≡ slice_set self.old slot true }
    {
        if (slot as usize) < self.flags.len() {
            self.flags[slot as usize] = true;
        }
    }

    fn clear(&mut self, slot: u32)
        requires { slot < length self.old }
        ensures { self.new ≡ slice_set self.old slot false }
    {
        self.flags[slot as usize] = false;
    }

    // The retired slots begin without a flag.
    fn clear_retired(&mut self, lists: &SlotLists)
        requires { AreInside lists.now.retired self.old }
        ensures none { NoneFlagged lists.now.retired self.new }
        ensures others { OthersFlagged lists.now.retired self.old → OthersFlagged lists.now.retired self.new }
        ensures wide { length self.new ≡ length self.old }
    {
        for place in 0..lists.retired_len() {
            self.clear(lists.retired_at(place).slot);
        }
    }

    // The slot that a reader's word announces is flagged.
    fn announce(&mut self, word: u64)
        ensures flags { self.new ≡ announced word self.old }
        ensures wide { length self.new ≡ length self.old }
    {
        if word > 0 && word - 1 < self.flags.len() as u64 {
            self.flags[(word - 1) as usize] = true;
        }
    }
}

impl Board {
    /// Loads each reader's own word once, in order: what the flags tell afterwards is of this scan.
    pub fn scan_words(&self, seat: &mut Seat, lists: &SlotLists, flags: &mut ScanFlags)
        requires search { SearchesIn self.now lists.now seat.old }
        requires flagged { Flagged self.now lists.now.retired (view_of seat.old).heard flags.old }
        requires some_words { 0 < self.now.announcers }
        ensures own { seat.new.table_id ≡ seat.old.table_id }
        ensures scans { ScannedTo lists.now.retired (view_of seat.old) (view_of seat.new) flags.new self.now.announcers }
        ensures search { SearchesIn self.now lists.now seat.new }
        ensures few { self.now.announcers ≤ self.now.shape.readers }
        ensures flagged { Flagged self.now lists.now.retired (view_of seat.new).heard flags.new }
    {
        flags.clear_retired(lists);
        for own in 0..self.announcers() {
            let word = self.scan_on(seat, own);
            flags.announce(word);
        }
    }

    /// As `scan_words`, by a writer between two calls.
    pub fn scan_at_rest(&self, seat: &mut Seat, lists: &SlotLists, flags: &mut ScanFlags)
        requires rests { RestsAt self.now lists.now seat.old }
        requires flagged { Flagged self.now lists.now.retired (view_of seat.old).heard flags.old }
        requires some_words { 0 < self.now.announcers }
        ensures own { seat.new.table_id ≡ seat.old.table_id }
        ensures hears { RestsHearing self.now.announcers lists.now.retired (view_of seat.old) (view_of seat.new) }
        ensures flagged { Flagged self.now lists.now.retired (view_of seat.new).heard flags.new }
    {
        flags.clear_retired(lists);
        for reader in 0..self.announcers() {
            let said = self.scan(seat, reader);
            flags.announce(said);
        }
    }

    /// Whether a slot isn't known to be heard of all readers that have a word.
    pub fn is_flagged(&self, flags: &ScanFlags, slot: u32) -> bool
        requires wide { 0 < self.now.announcers → slot < length flags.now }
        ensures none { self.now.announcers ≡ 0 → result ≡ false }
        ensures flag { 0 < self.now.announcers → result ≡ is_flagged flags.now slot }
    {
        self.announcers() > 0 && flags.is_flagged(slot)
    }
}
