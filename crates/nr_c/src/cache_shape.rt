//! The sizes of a cache as C has them.
ghost use Rattle.std.specs.Prelude.{◌≡◌};
ghost use Rattle.nr_c.specs.CacheOpenings.{cache_shape_of};

use nr_cache::StoreShape;

/// What a cache is opened with.
#[repr(C)]
#[derive(Clone, Copy)]
pub struct NrCacheShape {
    pub groups: u32,
    pub capacity: u32,
    pub readers: u32,
    pub flights: u32,
    pub changes: u32,
    pub weight: u64,
    pub key: u64,
}

impl NrCacheShape {
    /// The same sizes as a store's own opening takes them.
    pub fn shape(self) -> StoreShape
        ensures { result ≡ cache_shape_of self }
    {
        StoreShape {
            groups: self.groups,
            capacity: self.capacity,
            weight: self.weight,
            key: self.key,
            readers: self.readers,
            flights: self.flights,
            changes: self.changes,
        }
    }
}
