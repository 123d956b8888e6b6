//! What an id writer's handle leads to.
ghost use Rattle.std.specs.Prelude.{◌≡◌, All};
ghost use Rattle.nr_idmap.specs.Keepers.{id_table_of};
ghost use Rattle.nr_c.specs.Ledgers.{AreOf};

use crate::ledger::Ledger;
use crate::reader_side::APART;
use crate::watch::Watch;
use nr_idmap::{IdMap, IdReader, IdWriter};
use std::alloc::Global;
use std::sync::Arc;

/// The writer by id with its share of the map, the readers that no handle has yet, and the upqueries
/// whose numbers C has.
#[derive(Drop)]
pub struct IdWriterSide {
    /// Keeps what the writer's calls write apart from the map, which lies before it and which readers load.
    pub apart: [u64; APART],
    pub map: Arc<IdMap, Global>,
    pub writer: IdWriter,
    pub spare: Vec<IdReader, Global>,
    pub ledger: Ledger,
    pub watch: Watch,
    ghost own: { writer.table ≡ map.value },
    ghost spares: { All (λ reader. id_table_of reader ≡ map.value) spare.items },
    ghost owed: { AreOf map.value ledger },
}
