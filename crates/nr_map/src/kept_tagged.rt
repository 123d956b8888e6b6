//! Finds of sets that begin with a tag by a hand, which keeps what it found for the next one.
ghost use Rattle.std.specs.Prelude.{◌≡◌, ◌↔◌, ◌<◌, ◌-◌, ◌*◌, drop, length, min, IsSome, IsTrue};
ghost use Rattle.nr_map.specs.Hands.{CopiesHeld};
ghost use Rattle.nr_map.specs.Tagged.{FindsTaggedKept, IsTagged, KeepsTagged};

use crate::hand::Hand;
use crate::reader_map::ReaderMap;
use crate::tagged::Tagged;
use nr_model::{Row, RowRoom};

impl Hand {
    // Holds the set of a key, whichever that is: whether it begins with the tag. It reads the first row alone.
    #[inline(always)]
    pub(crate) fn keep_tagged(&mut self, map: &ReaderMap, key: u32, tag: Row) -> Tagged
        requires own { self.old.reader.table ≡ map.now }
        requires key { key < map.now.shape.keys }
        ensures own { self.new.reader.table ≡ map.now }
        ensures keeps { KeepsTagged tag key self.old self.new result }
    {
        if !self.keep(map, key) {
            return Tagged::Hole;
        }
        if self.begins_with(map, tag) {
            return Tagged::Rows;
        }
        Tagged::Other
    }

    /// Looks a key up as `find_kept` does and holds its set for the next call, whichever that is: the rows behind
    /// the tag go to the caller's room, which stays as it is unless the answer is `Rows`. Then it takes the steps
    /// of `find_kept`, where the tag is one of the rows. Of another set it reads the first row alone, if it has
    /// one, and takes the steps of `find_kept` of that many.
    #[inline(always)]
    pub fn find_tagged_kept<R: RowRoom>(
        &mut self,
        map: &ReaderMap,
        key: u32,
        tag: Row,
        rows: &mut R,
    ) -> Tagged
        requires own { self.old.reader.table ≡ map.now }
        requires key { key < map.now.shape.keys }
        ensures own { self.new.reader.table ≡ map.now }
        ensures finds { FindsTaggedKept R.shows tag key self.old rows.old self.new rows.new result }
    {
        let found = self.keep_tagged(map, key, tag);
        if let Tagged::Rows = found {
            self.copy_behind(map, rows);
        }
        found
    }

    // Whether the set that is held begins with the tag.
    #[inline(always)]
    fn begins_with(&mut self, map: &ReaderMap, tag: Row) -> bool
        requires own { self.old.reader.table ≡ map.now }
        requires holds { IsSome self.old.key }
        ensures own { self.new.reader.table ≡ map.now }
        ensures begins { IsTrue result ↔ IsTagged tag self.old.rows }
        ensures reads { CopiesHeld (2 * min 1 (length self.old.rows)) self.old self.new }
    {
        if self.len() == 0 {
            return false;
        }
        let first = self.row(map, 0);
        first.a == tag.a && first.b == tag.b
    }

    // Writes the rows that are held into the room, without the first.
    #[inline(always)]
    fn copy_behind<R: RowRoom>(&mut self, map: &ReaderMap, rows: &mut R)
        requires own { self.old.reader.table ≡ map.now }
        requires holds { IsSome self.old.key }
        requires some { 0 < length self.old.rows }
        ensures own { self.new.reader.table ≡ map.now }
        ensures copied { R.shows rows.new (drop 1 self.old.rows) }
        ensures reads { CopiesHeld (2 * (length self.old.rows - 1)) self.old self.new }
    {
        if let Some(kept) = self.held {
            map.board
                .copy_from::<1, R>(&mut self.caller.seat, kept.set, rows);
        }
    }
}
