//! The map over ids, and its opening.
ghost use Rattle.std.specs.Prelude.{◌≡◌, ◌↔◌, IsTrue};
ghost use Rattle.nr_idmap.specs.IdOpenings.{IsBadIdShape, shape_of};
ghost use Rattle.nr_core.specs.Sizes.{IsBadLargeShape};

use nr_ids::{Directory, MAX_GROUPS};
use nr_map::{MAX_LARGE_READERS, MAX_LARGE_SLOTS, ReaderMap, Shape};
use nr_model::{LAST_NUMBER, MAX_ROWS, is_bad_size};
use std::marker::Model;

/// A map of ids to row sets, shared by a writer and readers, each with a token of its own.
#[derive(Drop)]
pub struct IdMap {
    pub(crate) map: ReaderMap,
    pub(crate) directory: Directory,
}

impl Model for IdMap {
    ghost use Rattle.std.specs.Prelude.{◌≡◌, ◌<◌, ◌≤◌};
    ghost use Rattle.nr_model.specs.declared.rows.TheConstants.{MAX_ROWS};
    ghost use Rattle.nr_ids.specs.Groups.{ways};
    ghost use Rattle.nr_idmap.specs.Keepers.{IdTable};

    ghost Value = { IdTable };

    ghost view = { λ map. record { map = map.map; directory = map.directory } };

    ghost invariant = { λ map. (ways map.directory.plan ≡ map.map.shape.keys) × (0 < map.map.shape.rows) × (map.map.shape.rows ≤ MAX_ROWS) };
}

/// The sizes of a map over ids. An id has one of the eight ways of its group, or of its second group, by a
/// hash with that key, which should be drawn at random and told to nobody who may choose ids. At most as many ids are
/// filled as there are slots. Ticket numbers begin at `first_number`.
#[derive(Clone, Copy, Debug)]
pub struct IdShape {
    pub groups: u32,
    pub key: u64,
    pub slots: u32,
    pub readers: u32,
    pub rows: u32,
    pub first_number: u64,
}

impl IdShape {
    /// Whether an opening refuses it: there must be 1 to 536,870,911 groups, 1 to 4,194,303 slots, 1 to
    /// 65,534 readers, 1 to 254 rows for an id, and a first ticket number of at most 4,194,303.
    pub fn is_bad(&self) -> bool
        ensures { IsTrue result ↔ IsBadIdShape self.now }
    {
        is_bad_size(MAX_GROUPS, self.groups)
            || is_bad_size(MAX_LARGE_SLOTS, self.slots)
            || is_bad_size(MAX_LARGE_READERS - 1, self.readers)
            || is_bad_size(MAX_ROWS as u32 - 1, self.rows)
            || self.first_number > LAST_NUMBER
    }

    // The map's shape: each way is a key, a set has a row for the tag, and the first reader asks.
    pub(crate) fn of_map(&self) -> Shape
        requires { IsBadIdShape self.now → ⊥ }
        ensures value { result ≡ shape_of self.now }
        ensures good { IsBadLargeShape result → ⊥ }
    {
        Shape {
            keys: 8 * self.groups,
            slots: self.slots,
            readers: self.readers + 1,
            first_count: 0,
            first_number: self.first_number,
            rows: self.rows + 1,
        }
    }
}

impl IdMap {
    ghost use Rattle.nr_ids.specs.Groups.{group_of, second_of};
    ghost use Rattle.nr_idmap.specs.Keepers.{id_rows};

    /// How many rows an id may have.
    pub fn rows(&self) -> u32
        ensures { result ≡ id_rows self.now }
    {
        self.map.rows() - 1
    }

    /// The group of an id. What becomes of an id changes no other group.
    pub fn group_of(&self, id: u64) -> u32
        ensures { result ≡ group_of self.now.directory.plan id }
    {
        self.directory.plan().group_of(id)
    }

    /// The second group of an id, of which it may have a way where its own is well filled.
    pub fn second_of(&self, id: u64) -> u32
        ensures { result ≡ second_of self.now.directory.plan id }
    {
        self.directory.plan().second_of(id)
    }

    /// How many ways there are: that many ids can have one.
    pub fn ways(&self) -> u32
        ensures { result ≡ self.now.map.shape.keys }
    {
        self.map.keys()
    }
}
