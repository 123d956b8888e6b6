//! The sizes of a store.
ghost use Rattle.std.specs.Prelude.{◌≡◌, ◌↔◌, IsTrue};
ghost use Rattle.nr_cache.specs.Openings.{IsBadStoreShape, ids_of};
ghost use Rattle.nr_idmap.specs.IdOpenings.{IsBadIdShape};

use nr_idmap::IdShape;
use nr_model::is_bad_size;

/// How many groups a store may have.
pub const MAX_STORE_GROUPS: u32 = 516_000;
/// How many readers may find in it.
pub const MAX_STORE_READERS: u32 = 65_533;

/// A store holds at most `capacity` values, in groups of eight, and each may have one of sixteen places. An
/// id's two groups are chosen by a hash with that key, which should be drawn at random and told to nobody who
/// may choose ids. Where both are full a value of theirs makes room, however many there are: half as many
/// places again as values make that rare. It has room for so many flights, and so many changes of the base, at
/// a time. The values may weigh `weight` together; where that is 0 nothing is weighed.
#[derive(Clone, Copy, Debug)]
pub struct StoreShape {
    pub groups: u32,
    pub capacity: u32,
    pub weight: u64,
    pub key: u64,
    pub readers: u32,
    pub flights: u32,
    pub changes: u32,
}

impl StoreShape {
    /// Whether an opening refuses it: there must be 1 to 516,000 groups, 1 to 65,533 readers, and a capacity of
    /// 1 to eight values a group.
    pub fn is_bad(&self) -> bool
        ensures { IsTrue result ↔ IsBadStoreShape self.now }
    {
        is_bad_size(MAX_STORE_GROUPS, self.groups)
            || is_bad_size(8 * self.groups, self.capacity)
            || is_bad_size(MAX_STORE_READERS, self.readers)
    }

    // The shape of the store's map: a reader more, which claims, and a slot for each value, each reader, the
    // writer's own and one more. With many more a reap would look through those that nobody uses.
    pub(crate) fn of_ids(&self) -> IdShape
        requires { IsBadStoreShape self.now → ⊥ }
        ensures value { result ≡ ids_of self.now }
        ensures good { IsBadIdShape result → ⊥ }
    {
        IdShape {
            groups: self.groups,
            key: self.key,
            slots: self.capacity + self.readers + 3,
            readers: self.readers + 1,
            rows: 1,
            first_number: 0,
        }
    }
}
