//! Finds by a hand into a slice, which may take fewer rows than there are.
ghost use Rattle.std.specs.Prelude.{◌≡◌, ◌<◌, ◌≤◌, ◌+◌, ◌-◌, ◌*◌, ◌^◌, List, drop, length, min, IsSome};
ghost use Rattle.nr_model.specs.declared.rows.Row.{Row as SetRow};
ghost use Rattle.nr_map.specs.FirstRows.{ArePutOver, FindsFirst, FindsTaggedFirst, put_first};
ghost use Rattle.nr_map.specs.Hands.{CopiesHeld};

use crate::hand::Hand;
use crate::reader_map::ReaderMap;
use crate::tagged::Tagged;
use nr_model::Row;

impl Hand {
    /// Looks a key up and holds its set for the next call as `find_kept` does, and writes as many of its rows
    /// over the caller's as there are there: tells how many rows the set has. At a hole the caller's stay. It
    /// takes the steps of `find_kept` of the rows that it writes.
    #[inline(always)]
    pub fn find_first(&mut self, map: &ReaderMap, key: u32, cells: &mut [Row]) -> Option<u32>
        requires own { self.old.reader.table ≡ map.now }
        requires key { key < map.now.shape.keys }
        ensures own { self.new.reader.table ≡ map.now }
        ensures finds { FindsFirst key self.old cells.old self.new cells.new result }
    {
        if !self.keep(map, key) {
            return None;
        }
        self.copy_first(map, 0, cells);
        Some(self.len())
    }

    /// As `find_first`, of a set that begins with a tag: the rows behind it are written and counted, and none
    /// unless the answer is `Rows`. It takes the steps of `find_kept` of the tag and those that it writes; of
    /// another set it reads the first row alone, if it has one.
    #[inline(always)]
    pub fn find_tagged_first(
        &mut self,
        map: &ReaderMap,
        key: u32,
        tag: Row,
        cells: &mut [Row],
    ) -> (Tagged, u32)
        requires own { self.old.reader.table ≡ map.now }
        requires key { key < map.now.shape.keys }
        ensures own { self.new.reader.table ≡ map.now }
        ensures finds { FindsTaggedFirst tag key self.old cells.old self.new cells.new result.1 result.0 }
    {
        let found = self.keep_tagged(map, key, tag);
        if let Tagged::Rows = found {
            self.copy_first(map, 1, cells);
            return (Tagged::Rows, self.len() - 1);
        }
        (found, 0)
    }

    // Writes the rows that are held from that one on over the first ones there. Up to four are written without
    // a loop, by whose end the next find would wait for how many rows there are.
    #[inline(always)]
    fn copy_first(&mut self, map: &ReaderMap, from: u32, cells: &mut [Row])
        requires own { self.old.reader.table ≡ map.now }
        requires holds { IsSome self.old.key }
        requires from { from ≤ length self.old.rows }
        ensures own { self.new.reader.table ≡ map.now }
        ensures cells { cells.new ≡ put_first (drop from self.old.rows) cells.old }
        ensures reads { CopiesHeld (2 * min (length cells.old) (length self.old.rows - from)) self.old self.new }
    {
        let count = cells.len().min((self.len() - from) as usize);
        self.copy_where(map, from, 0, count, cells);
        self.copy_where(map, from, 1, count, cells);
        self.copy_where(map, from, 2, count, cells);
        self.copy_where(map, from, 3, count, cells);
        for place in 4..count {
            self.copy_where(map, from, place, count, cells);
        }
    }

    // Writes the row at that place behind the first ones over the cell there, where there are more than that.
    #[inline(always)]
    fn copy_where(
        &mut self,
        map: &ReaderMap,
        from: u32,
        place: usize,
        count: usize,
        cells: &mut [Row],
    )
        requires own { self.old.reader.table ≡ map.now }
        requires holds { IsSome self.old.key }
        requires rows { from + count ≤ length self.old.rows }
        requires few { from + count < 2 ^ 32 }
        requires room { count ≤ length cells.old }
        ensures own { self.new.reader.table ≡ map.now }
        ensures cells { (before : List SetRow) → ArePutOver (drop from self.old.rows) before (min place count) cells.old → ArePutOver (drop from self.old.rows) before (min (place + 1) count) cells.new }
        ensures room { length cells.new ≡ length cells.old }
        ensures reads { CopiesHeld (2 * (min (place + 1) count - min place count)) self.old self.new }
    {
        if place >= count {
            return;
        }
        let row = self.row(map, from + place as u32);
        cells[place] = row;
    }
}
