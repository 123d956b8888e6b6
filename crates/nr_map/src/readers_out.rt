//! Readers that come back one by one.
ghost use Rattle.std.specs.Prelude.{◌≡◌, ◌<◌, ◌-◌};
ghost use Rattle.nr_map.specs.Remains.{TakenApart};

use crate::reader::Reader;
use crate::reader_map::ReaderMap;
use crate::remains::Rest;
use crate::writer::Writer;
use std::marker::Model;
use std::snapshot::Snapshot;

/// How many of a map's readers are not back yet.
#[derive(Drop)]
pub struct ReadersOut {
    count: u32,
    map: Snapshot<ReaderMap>,
}

impl Model for ReadersOut {
    ghost use Rattle.nr_map.specs.Remains.{Out};

    ghost Value = { Out };

    ghost view = { λ out. record { table = out.map.value; count = out.count } };
}

impl ReadersOut {
    /// How many are not back.
    pub fn count(&self) -> u32
        ensures { result ≡ self.now.count }
    {
        self.count
    }
}

impl ReaderMap {
    /// All readers are out. Takes no step, as those below.
    pub fn readers_out(&self) -> ReadersOut
        ensures { result ≡ record { table = self.now; count = self.now.shape.readers } }
    {
        ReadersOut {
            count: self.readers(),
            map: Snapshot::of(self),
        }
    }

    /// A reader is back.
    pub fn take_back(&self, out: &mut ReadersOut, reader: Reader)
        requires own { (out.old.table ≡ self.now) × (reader.table ≡ self.now) }
        requires some { 0 < out.old.count }
        ensures { out.new ≡ record out.old { count = out.old.count - 1 } }
    {
        let Reader { caller: _ } = reader;
        out.count -= 1;
    }

    /// As `leave`, once all readers came back so.
    pub fn leave_by(&self, writer: Writer, out: ReadersOut) -> Rest
        requires own { (writer.table ≡ self.now) × (out.table ≡ self.now) }
        requires all { out.count ≡ 0 }
        ensures { TakenApart writer result }
    {
        let ReadersOut { count: _, map: _ } = out;
        Rest::of(writer)
    }
}
