//! The tokens of a map over ids: each is one of the map and one of the directory.
use nr_ids::Clerk;
use nr_map::{Reader, Writer};
use nr_model::SortedRows;
use std::marker::Model;

/// A token that finds and requests ids, for one thread.
#[derive(Drop)]
pub struct IdReader {
    pub(crate) reader: Reader,
    pub(crate) ids: nr_ids::Reader,
}

impl Model for IdReader {
    ghost use Rattle.nr_idmap.specs.Keepers.{IdCaller};

    ghost Value = { IdCaller };

    ghost view = { λ reader. record { caller = reader.reader; ids = reader.ids } };
}

/// The one token that admits, fills, updates, replaces and evicts, for the dataflow's thread. It has a
/// reader of its own, which asks for the ways of ids that it admits.
#[derive(Drop)]
pub struct IdWriter {
    pub(crate) writer: Writer,
    pub(crate) asker: Reader,
    pub(crate) clerk: Clerk,
    /// The set that was put last, with its tag.
    pub(crate) sorted: SortedRows,
}

impl Model for IdWriter {
    ghost use Rattle.nr_idmap.specs.Keepers.{IsTied, Keeper, keeper_of};

    ghost Value = { Keeper };

    ghost view = { λ writer. keeper_of writer.writer writer.asker writer.clerk };

    ghost invariant = { λ writer. IsTied (keeper_of writer.writer writer.asker writer.clerk) };
}

impl IdWriter {
    ghost use Rattle.nr_idmap.specs.Keepers.{IsTied};

    /// What the writer has seen is a sound, tidy history, and the two tables agree, so that the laws
    /// apply to it. Takes no step.
    pub fn is_tied(&self)
        ensures { IsTied self.now }
    {
        let _held = &self.writer;
    }
}
