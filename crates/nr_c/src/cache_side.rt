//! What a cache's handle leads to.
ghost use Rattle.std.specs.Prelude.{◌≡◌, All};
ghost use Rattle.nr_idmap.specs.Keepers.{id_table_of};

use crate::reader_side::APART;
use crate::watch::Watch;
use nr_cache::Store;
use nr_idmap::{IdMap, IdReader};
use std::alloc::Global;
use std::sync::Arc;

/// A store with its share of its map, and the readers that no handle has yet.
pub struct CacheSide {
    /// Keeps what the store's calls write apart from the map, which lies before it and which readers load.
    pub apart: [u64; APART],
    pub map: Arc<IdMap, Global>,
    pub store: Store,
    pub spare: Vec<IdReader, Global>,
    pub watch: Watch,
    ghost own: { store.keeper.table ≡ map.value },
    ghost spares: { All (λ reader. id_table_of reader ≡ map.value) spare.items },
}

// A store is closed.
impl Drop for CacheSide {
    fn drop(self) {
        let CacheSide {
            apart: _,
            map: _,
            store,
            spare: _,
            watch: _,
        } = self;
        store.close();
    }
}
