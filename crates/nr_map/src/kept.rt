//! Finds by a hand, which may keep what it found for the next one.
ghost use Rattle.std.specs.Prelude.{◌≡◌, ◌<◌, IsSome};
ghost use Rattle.nr_map.specs.Hands.{FindsAndLetsGo, FindsKept, KeepsByHand, MovesByHand};

use crate::hand::{Hand, Kept};
use crate::reader_map::ReaderMap;
use nr_board::Found;
use nr_model::RowRoom;
use nr_words::names;

impl Hand {
    /// Lets go what is held, and looks a key up as `find_into` of the map does: nothing is held then.
    #[inline(always)]
    pub fn find<R: RowRoom>(&mut self, map: &ReaderMap, key: u32, rows: &mut R) -> Found
        requires own { self.old.reader.table ≡ map.now }
        requires key { key < map.now.shape.keys }
        ensures own { self.new.reader.table ≡ map.now }
        ensures finds { FindsAndLetsGo R.shows key self.old rows.old self.new rows.new result }
    {
        self.release(map);
        self.caller.find(map, key, rows)
    }

    /// Looks a key up and holds its set for the next call.
    ///
    /// If it holds the key's set already and finds it again, it takes 2n + 1 steps for n rows, and
    /// writes no word. Otherwise it finds and holds anew:
    ///
    /// - A reader without a word, which goes by the counts, takes 2n + 2 steps, or 1 for a hole. If it
    ///   held a set, it lets that go first, in 1 step more, or in 2 if that was another set of this key.
    /// - A reader with a word takes 2n + 4, 2n + 6 or 2n + 8 steps, or 1, 4, 6 or 7 for a hole. If it
    ///   held a set by its word, announcing the slot that it looked up lets that go. If the look named
    ///   no slot, it takes 2 steps more, to clear its word and to look again. If it held a set by the
    ///   counts, it takes 1 step more, or 2 if that was another set of this key.
    #[inline(always)]
    pub fn find_kept<R: RowRoom>(&mut self, map: &ReaderMap, key: u32, rows: &mut R) -> Found
        requires own { self.old.reader.table ≡ map.now }
        requires key { key < map.now.shape.keys }
        ensures own { self.new.reader.table ≡ map.now }
        ensures finds { FindsKept R.shows key self.old rows.old self.new rows.new result }
    {
        if !self.keep(map, key) {
            return Found::Hole;
        }
        self.copy_to(map, rows);
        Found::Rows
    }

    // Holds the set of a key: the one that is held, where the key has it still, or what a find finds.
    #[inline(always)]
    pub(crate) fn keep(&mut self, map: &ReaderMap, key: u32) -> bool
        requires own { self.old.reader.table ≡ map.now }
        requires key { key < map.now.shape.keys }
        ensures own { self.new.reader.table ≡ map.now }
        ensures keeps { KeepsByHand key self.old self.new result }
    {
        let Some(kept) = self.held else {
            return self.pin(map, key);
        };
        if kept.key == key {
            let word = map
                .board
                .look_again(&mut self.caller.seat, kept.set.slot, key);
            if names(word, kept.set.slot) {
                return true;
            }
            return self.move_to(map, key, word);
        }
        if kept.set.says == 0 {
            return self.pin(map, key);
        }
        let word = map.board.look_ahead(&mut self.caller.seat, key);
        self.move_to(map, key, word)
    }

    // Goes on from the set that is held to a key, whose word was loaded: a reader that holds by its
    // word announces the slot that this names.
    #[inline(always)]
    fn move_to(&mut self, map: &ReaderMap, key: u32, word: u64) -> bool
        requires own { self.old.reader.table ≡ map.now }
        requires key { key < map.now.shape.keys }
        requires holds { IsSome self.old.key }
        ensures own { self.new.reader.table ≡ map.now }
        ensures moves { MovesByHand key word self.old self.new result }
    {
        match self.held {
            Some(kept) if kept.set.says > 0 => {
                let own = self.caller.own;
                match map.board.move_to(&mut self.caller.seat, own, key, word) {
                    Some(set) => {
                        self.held = Some(Kept { key, set });
                        true
                    }
                    None => {
                        self.held = None;
                        false
                    }
                }
            }
            _ => self.pin(map, key),
        }
    }
}
