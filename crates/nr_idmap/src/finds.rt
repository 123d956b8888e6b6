//! What readers do: they find ids, and request those that have no way.
ghost use Rattle.std.specs.Prelude.{◌≡◌, ◌<◌, IfSome};
ghost use Rattle.nr_ids.specs.Answers.{Requests};
ghost use Rattle.nr_idmap.specs.Keepers.{id_table_of};

use crate::id_map::IdMap;
use crate::rows::tag_of;
use crate::tokens::IdReader;
use nr_ids::Requested;
use nr_map::Tagged;
use nr_model::RowRoom;

/// The answer to a find by id.
#[derive(Clone, Copy, Debug, PartialEq, Eq)]
pub enum FoundId {
    /// The caller's room has the id's rows.
    Rows,
    /// The id's way was a hole: its upquery is under way; or within the call that was withdrawn, or the
    /// id evicted, and nobody may be filling it.
    Pending,
    /// The id's way became another id's within the call.
    Moved,
    /// Within the call there was a moment at which the id had no way.
    Absent,
}

/// The way that has an id's name, and whether that way is marked as found.
#[derive(Clone, Copy)]
pub struct NamedWay {
    pub(crate) way: u32,
    pub(crate) is_marked: bool,
}

impl IdMap {
    ghost use Rattle.nr_idmap.specs.IdFinds.{FindsById, FindsInside, LooksForWay, MarksTold, answer_told};

    /// Looks an id up, and writes its rows into the caller's room, which stays as it is unless the
    /// answer is `Rows`. Takes 1 load of a word that lies in the line of the id's key; a look-up, which looks at
    /// the hints of the id's group and at the name of each way that has the id's hint, up to the id's, and
    /// unless one of them was, so too in its second group; where a way had the name, 1 look at the way's mark,
    /// and the steps of the map's find, of one row more: by the counts 1 where the way is a hole, 2n + 5 for n
    /// rows, and 5 where it has another id's, of which only the first row is read; and 1 to mark a way whose
    /// rows were found, unless it is marked already.
    pub fn find<R: RowRoom>(&self, reader: &mut IdReader, id: u64, rows: &mut R) -> FoundId
        requires own { id_table_of reader.old ≡ self.now }
        requires id { 0 < id }
        ensures own { id_table_of reader.new ≡ self.now }
        ensures finds { FindsById R.shows id reader.old rows.old reader.new rows.new result }
    {
        let first = self.directory.plan().first_way(id);
        self.map.load_key(&mut reader.reader, first);
        let Some(at) = self.look_up(&mut reader.ids, id) else {
            return FoundId::Absent;
        };
        self.find_in(reader, at, id, rows)
    }

    // The way that has the id's name. Its mark is looked at here, beside the lines that the find will
    // need: behind the find's writes its line would be waited for alone.
    #[inline(always)]
    pub(crate) fn look_up(&self, ids: &mut nr_ids::Reader, id: u64) -> Option<NamedWay>
        requires own { ids.old.directory ≡ self.now.directory }
        requires id { 0 < id }
        ensures own { ids.new.directory ≡ self.now.directory }
        ensures looks { LooksForWay id ids.old ids.new result }
        ensures inside { IfSome result (λ at. at.way < self.now.map.shape.keys) }
    {
        let way = self.directory.look_up(ids, id)?;
        let is_marked = self.directory.is_marked(ids, way);
        Some(NamedWay { way, is_marked })
    }

    // Finds the rows of an id in its way.
    pub(crate) fn find_in<R: RowRoom>(
        &self,
        reader: &mut IdReader,
        at: NamedWay,
        id: u64,
        rows: &mut R,
    ) -> FoundId
        requires own { id_table_of reader.old ≡ self.now }
        requires way { at.way < self.now.map.shape.keys }
        ensures own { id_table_of reader.new ≡ self.now }
        ensures finds { FindsInside R.shows id at reader.old rows.old reader.new rows.new result }
    {
        let found = self
            .map
            .find_tagged(&mut reader.reader, at.way, tag_of(id), rows);
        self.tell(&mut reader.ids, at, found)
    }

    // What the map's find in that way tells of the id. Rows mark their way.
    #[inline(always)]
    pub(crate) fn tell(&self, ids: &mut nr_ids::Reader, at: NamedWay, found: Tagged) -> FoundId
        requires own { ids.old.directory ≡ self.now.directory }
        requires way { at.way < self.now.map.shape.keys }
        ensures own { ids.new.directory ≡ self.now.directory }
        ensures marks { MarksTold found at ids.old ids.new }
        ensures answer { result ≡ answer_told found }
    {
        match found {
            Tagged::Rows => {
                self.directory.mark(ids, at.way, at.is_marked);
                FoundId::Rows
            }
            Tagged::Other => FoundId::Moved,
            Tagged::Hole => FoundId::Pending,
        }
    }

    /// Requests an id that has no way. The first such request of the id's group is `Granted` a claim,
    /// whose id must go to the writer, which admits it; until then the others are `Busy` or `Outrun`.
    /// `Named`: the id has a way. Takes 1 step, where no claim is open those of a look-up, and
    /// 1 more where the claim is granted or another was within the call.
    pub fn request(&self, reader: &mut IdReader, id: u64) -> Requested
        requires own { id_table_of reader.old ≡ self.now }
        requires id { 0 < id }
        ensures own { id_table_of reader.new ≡ self.now }
        ensures answer { Requests id reader.old.ids reader.new.ids result }
        ensures map { reader.new.caller ≡ reader.old.caller }
    {
        self.directory.request(&mut reader.ids, id)
    }
}
