//! A map over ids that its writer leaves, and the sets that come out of what remains.
ghost use Rattle.std.specs.Prelude.{◌≡◌, ◌<◌, ◌-◌};
ghost use Rattle.nr_map.specs.Remains.{NextOf, TakenApart};
ghost use Rattle.nr_idmap.specs.Keepers.{id_table_of};

use crate::id_map::IdMap;
use crate::tokens::{IdReader, IdWriter};
use nr_map::{ReadersOut, Rest};
use nr_model::RowRoom;

impl IdMap {
    /// All readers of the map are out, among them the writer's own. Takes no step, as those below.
    pub fn readers_out(&self) -> ReadersOut
        ensures { result ≡ record { table = self.now.map; count = self.now.map.shape.readers } }
    {
        self.map.readers_out()
    }

    /// A reader is back.
    pub fn take_back(&self, out: &mut ReadersOut, reader: IdReader)
        requires own { (out.old.table ≡ self.now.map) × (id_table_of reader ≡ self.now) }
        requires some { 0 < out.old.count }
        ensures { out.new ≡ record out.old { count = out.old.count - 1 } }
    {
        let IdReader { reader, ids: _ } = reader;
        self.map.take_back(out, reader);
    }

    /// Ends the writer, once all readers but its own are back: nobody holds a set any more. The sets that no
    /// call gave out come out of what is left.
    pub fn leave(&self, writer: IdWriter, mut out: ReadersOut) -> Rest
        requires own { (writer.table ≡ self.now) × (out.table ≡ self.now.map) }
        requires all { out.count ≡ 1 }
        ensures own { result.writer.table ≡ self.now.map }
        ensures left { TakenApart writer.writer result }
    {
        let IdWriter {
            writer,
            asker,
            clerk: _,
            sorted: _,
        } = writer;
        self.map.take_back(&mut out, asker);
        self.map.leave_by(writer, out)
    }

    /// Writes the next of them into the caller's room, as `Rest::next_of`. It comes out with its tag: its
    /// first row's `b` is the id that it was of.
    pub fn next_of<R: RowRoom>(&self, rest: &mut Rest, rows: &mut R) -> bool
        requires own { rest.old.writer.table ≡ self.now.map }
        ensures own { rest.new.writer.table ≡ self.now.map }
        ensures next { NextOf R.shows rest.old rows.old rest.new rows.new result }
    {
        rest.next_of::<R>(&self.map, rows)
    }
}
