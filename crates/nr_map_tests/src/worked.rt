//! A map with its tokens, whose calls tests make one after another. Each method makes one call and
//! asserts its answer, so that a test is a list of calls.
ghost use Rattle.std.specs.Prelude.{◌≡◌, ◌<◌, All};

use crate::calls::{Told, ask, evict, fill, find, look, pairs_are, rows_of, state, update};
use crate::same::{are_same, is_same};
use nr_map::{Evict, Found, KeyKind, Reader, ReaderMap, Shape, UpdateFault, Writer};
use nr_model::{Delta, RowSet};
use std::marker::Model;
use std::process::Abort;

/// A map, its writer and one of its readers.
#[derive(Drop)]
pub(crate) struct Worked {
    pub(crate) map: ReaderMap,
    pub(crate) writer: Writer,
    pub(crate) reader: Reader,
}

impl Model for Worked {
    ghost use Rattle.std.specs.Prelude.{◌≡◌};
    ghost use Rattle.nr_board.specs.Callers.{Table};

    ghost Value = { Table };

    ghost view = { λ worked. worked.map };

    ghost invariant = { λ worked. (worked.writer.table ≡ worked.map) × (worked.reader.table ≡ worked.map) };
}

// Goes on with a key that the map has.
fn is_key<R: Abort>(rt: &R, map: &ReaderMap, key: u32)
    ensures { key < map.now.shape.keys }
{
    assert!(rt; key < map.keys());
}

fn rows_are<R: Abort>(rt: &R, rows: &RowSet, pairs: &[(u64, u64)]) {
    assert!(rt; pairs_are(rows, pairs));
}

/// The last of a map's readers, which there is.
pub(crate) fn next<R: Abort>(rt: &R, map: &ReaderMap, readers: &mut Vec<Reader>) -> Reader
    requires { All (λ reader. reader.table ≡ map.now) readers.old.items }
    ensures next { result.table ≡ map.now }
    ensures others { All (λ reader. reader.table ≡ map.now) readers.new.items }
{
    readers.pop().expect(rt, "a reader")
}

/// A map's shape of those sizes, whose counts begin with 0.
pub(crate) fn of_sizes(keys: u32, slots: u32, readers: u32, rows: u32) -> Shape
    ensures { result.keys ≡ keys }
{
    Shape {
        keys,
        slots,
        readers,
        first_count: 0,
        first_number: 0,
        rows,
    }
}

impl Worked {
    /// A new map of those sizes, with its last reader.
    pub(crate) fn open<R: Abort + AllocGlobal>(
        rt: &R,
        keys: u32,
        slots: u32,
        readers: u32,
        first_count: u64,
    ) -> Worked
        ensures { result.shape.keys ≡ keys }
    {
        let opened = ReaderMap::open(rt.alloc(), keys, slots, readers, first_count);
        let (map, writer, mut readers) = opened.expect(rt, "a map");
        let reader = next(rt, &map, &mut readers);
        Worked {
            map,
            writer,
            reader,
        }
    }

    /// A new map of that shape, with its last reader.
    pub(crate) fn open_with<R: Abort + AllocGlobal>(rt: &R, shape: &Shape) -> Worked {
        let opened = ReaderMap::open_with(rt.alloc(), shape);
        let (map, writer, mut readers) = opened.expect(rt, "a map");
        let reader = next(rt, &map, &mut readers);
        Worked {
            map,
            writer,
            reader,
        }
    }

    /// A new map of that shape, which may be large, with its last reader.
    pub(crate) fn open_large<R: Abort + AllocGlobal>(rt: &R, shape: &Shape) -> Worked
        ensures { result.shape.keys ≡ shape.now.keys }
    {
        let opened = ReaderMap::open_large(rt.alloc(), shape);
        let (map, writer, mut readers) = opened.expect(rt, "a map");
        let reader = next(rt, &map, &mut readers);
        Worked {
            map,
            writer,
            reader,
        }
    }

    /// A new map of those sizes and two readers, with its first reader, and the second beside it.
    pub(crate) fn open_two<R: Abort + AllocGlobal>(
        rt: &R,
        keys: u32,
        slots: u32,
        first_count: u64,
    ) -> (Worked, Reader)
        ensures { let (worked, reader) = result in (worked.shape.keys ≡ keys) × (reader.table ≡ worked) }
    {
        let opened = ReaderMap::open(rt.alloc(), keys, slots, 2, first_count);
        let (map, writer, mut readers) = opened.expect(rt, "a map");
        let second = next(rt, &map, &mut readers);
        let reader = next(rt, &map, &mut readers);
        let worked = Worked {
            map,
            writer,
            reader,
        };
        (worked, second)
    }

    pub(crate) fn asks<R: Abort>(&mut self, rt: &R, key: u32, told: Told)
        ensures { self.new ≡ self.old }
    {
        is_key(rt, &self.map, key);
        is_same(rt, &ask(&self.map, &mut self.reader, key), &told);
    }

    /// Finds a key, and writes its rows into the set.
    fn find<R: Abort>(&mut self, rt: &R, key: u32, rows: &mut RowSet) -> Found
        ensures { self.new ≡ self.old }
    {
        is_key(rt, &self.map, key);
        find(&self.map, &mut self.reader, key, rows)
    }

    /// Looks a key up, and writes its rows into the set.
    fn look<R: Abort>(&mut self, rt: &R, key: u32, rows: &mut RowSet) -> Found
        ensures { self.new ≡ self.old }
    {
        is_key(rt, &self.map, key);
        look(&self.map, &mut self.writer, key, rows)
    }

    /// What a find of the key finds.
    fn found<R: Abort>(&mut self, rt: &R, key: u32) -> RowSet
        ensures { self.new ≡ self.old }
    {
        let mut rows = RowSet::new();
        is_same(rt, &self.find(rt, key, &mut rows), &Found::Rows);
        rows
    }

    pub(crate) fn finds<R: Abort>(&mut self, rt: &R, key: u32, pairs: &[(u64, u64)])
        ensures { self.new ≡ self.old }
    {
        rows_are(rt, &self.found(rt, key), pairs);
    }

    pub(crate) fn finds_set<R: Abort>(&mut self, rt: &R, key: u32, rows: &RowSet)
        ensures { self.new ≡ self.old }
    {
        are_same(rt, self.found(rt, key).as_slice(), rows.as_slice());
    }

    pub(crate) fn looks<R: Abort>(&mut self, rt: &R, key: u32, pairs: &[(u64, u64)])
        ensures { self.new ≡ self.old }
    {
        let mut rows = RowSet::new();
        is_same(rt, &self.look(rt, key, &mut rows), &Found::Rows);
        rows_are(rt, &rows, pairs);
    }

    /// A look by the writer and a find by the reader come to a hole.
    pub(crate) fn misses<R: Abort>(&mut self, rt: &R, key: u32)
        ensures { self.new ≡ self.old }
    {
        let mut rows = RowSet::new();
        let looked = self.look(rt, key, &mut rows);
        let found = self.find(rt, key, &mut rows);
        is_same(rt, &(looked, found), &(Found::Hole, Found::Hole));
    }

    pub(crate) fn fills_set<R: Abort>(&mut self, rt: &R, key: u32, number: u64, rows: &RowSet)
        ensures { self.new ≡ self.old }
    {
        is_key(rt, &self.map, key);
        let filled = fill(&self.map, &mut self.writer, key, number, rows);
        is_same(rt, &filled, &Some(Ok(())));
    }

    pub(crate) fn fills<R: Abort>(&mut self, rt: &R, key: u32, number: u64, pairs: &[(u64, u64)])
        ensures { self.new ≡ self.old }
    {
        self.fills_set(rt, key, number, &rows_of(pairs));
    }

    pub(crate) fn updates<R: Abort>(
        &mut self,
        rt: &R,
        key: u32,
        deltas: &[Delta],
        answer: Result<(), UpdateFault>,
    )
        ensures { self.new ≡ self.old }
    {
        is_key(rt, &self.map, key);
        let updated = update(&self.map, &mut self.writer, key, deltas);
        is_same(rt, &updated, &Some(answer));
    }

    pub(crate) fn evicts<R: Abort>(&mut self, rt: &R, key: u32, answer: Evict)
        ensures { self.new ≡ self.old }
    {
        is_key(rt, &self.map, key);
        is_same(rt, &evict(&self.map, &mut self.writer, key), &answer);
    }

    pub(crate) fn stands<R: Abort>(&mut self, rt: &R, key: u32, kind: KeyKind)
        ensures { self.new ≡ self.old }
    {
        is_key(rt, &self.map, key);
        is_same(rt, &state(&self.map, &mut self.writer, key), &kind);
    }
}
