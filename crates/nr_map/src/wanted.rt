//! Finds of many keys by one call.
ghost use Rattle.std.specs.Prelude.{◌≡◌, ◌+◌, ◌<◌, ◌≤◌, All, length, min, take};
ghost use Rattle.nr_board.specs.declared.answers.Found.TheVariants.{Hole};
ghost use Rattle.nr_map.specs.FindsEach.{keys_of};

use crate::ahead::GROUP;
use crate::reader::Reader;
use crate::reader_map::ReaderMap;
use nr_board::Found;
use nr_model::RowRoom;

/// A key to be found, the room for its rows, and what its last find was answered.
#[derive(Drop)]
pub struct Wanted<R> {
    pub key: u32,
    pub rows: R,
    pub found: Found,
}

impl<R> Wanted<R> {
    /// A key that is yet to be found, `Hole` until then.
    pub fn of(key: u32, rows: R) -> Wanted<R>
        ensures key { result.key ≡ key }
        ensures rows { result.rows ≡ rows }
        ensures found { result.found ≡ Hole }
    {
        Wanted {
            key,
            rows,
            found: Found::Hole,
        }
    }
}

impl ReaderMap {
    ghost use Rattle.nr_map.specs.FindsEach.{FindsEach, FindsGroup, FindsWanted};
    ghost use Rattle.nr_map.specs.LoadsAhead.{LoadsAhead};

    /// Looks each key up, in their order, as `find_into` does one: a find of each is an entry of its
    /// own, also of a key that is wanted twice. Each key's rows go to its own room, which stays as it
    /// is where the key is a hole. Takes the steps of all the finds, and for each key 3 loads, and 1
    /// more for each 4 rows, or part of 4, that a key may have above 4 and up to 16. These are made for
    /// 16 keys at a time before these are found: so the caches fetch what 16 finds need at once.
    pub fn find_each<R: RowRoom>(&self, reader: &mut Reader, wanted: &mut [Wanted<R>])
        requires own { reader.old.table ≡ self.now }
        requires keys { All (λ one. one.key < self.now.shape.keys) wanted.old }
        ensures own { reader.new.table ≡ self.now }
        ensures finds { FindsEach R.shows reader.old wanted.old reader.new wanted.new }
    {
        for group in 0..wanted.len().div_ceil(GROUP) {
            let begin = group * GROUP;
            let end = end_of_group(begin, wanted.len());
            self.find_group(reader, &mut wanted[begin..end]);
        }
    }

    // The finds of at most sixteen keys.
    fn find_group<R: RowRoom>(&self, reader: &mut Reader, group: &mut [Wanted<R>])
        requires own { reader.old.table ≡ self.now }
        requires keys { All (λ one. one.key < self.now.shape.keys) group.old }
        requires few { length group.old ≤ 16 }
        ensures own { reader.new.table ≡ self.now }
        ensures finds { FindsGroup R.shows reader.old group.old reader.new group.new }
    {
        self.load_group(reader, group);
        for one in group.iter_mut() {
            self.find_wanted(reader, one);
        }
    }

    fn find_wanted<R: RowRoom>(&self, reader: &mut Reader, one: &mut Wanted<R>)
        requires own { reader.old.table ≡ self.now }
        requires key { one.old.key < self.now.shape.keys }
        ensures own { reader.new.table ≡ self.now }
        ensures finds { FindsWanted R.shows reader.old one.old reader.new one.new }
    {
        one.found = self.find_into(reader, one.key, &mut one.rows);
    }

    fn load_group<R>(&self, reader: &mut Reader, group: &[Wanted<R>])
        requires own { reader.old.table ≡ self.now }
        requires keys { All (λ one. one.key < self.now.shape.keys) group.now }
        requires few { length group.now ≤ 16 }
        ensures own { reader.new.table ≡ self.now }
        ensures loads { LoadsAhead (keys_of group.now) reader.old reader.new }
    {
        let mut keys = [0; GROUP];
        copy_keys(group, &mut keys);
        self.load_ahead(reader, &keys[..group.len()]);
    }
}

// Writes the keys of a group over the first ones there.
fn copy_keys<R>(group: &[Wanted<R>], keys: &mut [u32; GROUP])
    requires few { length group.now ≤ 16 }
    ensures { take (length group.now) keys.new ≡ keys_of group.now }
{
    for place in 0..group.len() {
        keys[place] = group[place].key;
    }
}

// Where the group ends that begins there, in a list of that many keys.
fn end_of_group(begin: usize, keys: usize) -> usize
    requires { begin < keys }
    ensures { result ≡ min (begin + 16) keys }
{
    if keys - begin < GROUP {
        keys
    } else {
        begin + GROUP
    }
}
