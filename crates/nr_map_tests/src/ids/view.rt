//! A map over ids with its writer and a reader. Each method makes a call or a few and asserts the
//! answers, so that a test is a list of calls.
ghost use Rattle.std.specs.Prelude.{◌≡◌, ◌<◌};
ghost use Rattle.nr_model.specs.Batches.{IsBatch};
ghost use Rattle.nr_idmap.specs.IdNotes.{note_table_of};
ghost use Rattle.nr_idmap.specs.Keepers.{id_rows, id_table_of};
ghost use Rattle.nr_idmap.specs.Tags.{AreIdDeltas, IsIdSet};

use nr_idmap::{
    Evict, FoundId, IdFault, IdMap, IdNote, IdReader, IdShape, IdWriter, Looked, OpenFault, Reaped,
    Reclaimed, Refused, ReplaceFault, Requested, Unfilled, UpdateFault, Upquery, Withdrawn,
    are_id_deltas, are_id_rows,
};
use nr_model::{Batch, Delta, Row, RowSet};
use std::fmt::Debug;
use std::marker::Model;
use std::process::Abort;

/// A key as one might draw it.
const KEY: u64 = 0x9E37_79B9_7F4A_7C15;

/// One group, and three slots more than ways.
pub(crate) const SMALL: IdShape = IdShape {
    groups: 1,
    key: KEY,
    slots: 11,
    readers: 1,
    rows: 4,
    first_number: 0,
};

/// A map over ids, its writer and one of its readers. A test ends it by `close`: in each test that
/// drops it, the drop of each part of each token would be proved once more.
pub(crate) struct View {
    map: IdMap,
    writer: IdWriter,
    reader: IdReader,
    readers: usize,
}

impl Model for View {
    ghost use Rattle.std.specs.Prelude.{◌≡◌};
    ghost use Rattle.nr_idmap.specs.Keepers.{IdTable, id_table_of};

    ghost Value = { IdTable };

    ghost view = { λ view. view.map };

    ghost invariant = { λ view. (view.writer.table ≡ view.map) × (id_table_of view.reader ≡ view.map) };
}

pub(crate) fn row(a: u64, b: u64) -> Row {
    Row { a, b }
}

pub(crate) fn plus(a: u64, b: u64) -> Delta {
    Delta {
        row: row(a, b),
        plus: true,
    }
}

pub(crate) fn minus(a: u64, b: u64) -> Delta {
    Delta {
        row: row(a, b),
        plus: false,
    }
}

/// The two are the same. Each `assert_eq!` of a test would be proved anew.
pub(crate) fn is_same<T: Debug + PartialEq, R: Abort>(rt: &R, got: &T, wanted: &T) {
    assert_eq!(rt; got, wanted);
}

/// The set has just these rows.
pub(crate) fn is_set<R: Abort>(rt: &R, set: &[Row], wanted: &[Row]) {
    assert_eq!(rt; set, wanted);
}

/// The rows in order, as a set that ids may have.
pub(crate) fn set_of<R: Abort>(rt: &R, map: &IdMap, rows: &[Row]) -> RowSet
    ensures { IsIdSet (id_rows map.now) result }
{
    let set = RowSet::of(rows).expect(rt, "few rows");
    assert!(rt; set.as_slice().len() <= map.rows() as usize);
    assert!(rt; are_id_rows(set.as_slice()));
    set
}

/// The signed rows, as a batch for an id.
pub(crate) fn batch_of<R: Abort>(rt: &R, deltas: &[Delta]) -> Batch
    ensures batch { IsBatch result }
    ensures deltas { AreIdDeltas result }
{
    let batch = Batch::of(deltas).expect(rt, "a batch");
    assert!(rt; are_id_deltas(batch.as_slice()));
    batch
}

/// Whether the claim is granted, which is spent.
pub(crate) fn is_granted(requested: Requested) -> bool {
    match requested {
        Requested::Granted(claim) => {
            claim.into_id();
            true
        }
        Requested::Named(_) | Requested::Busy | Requested::Outrun | Requested::Worn => false,
    }
}

/// Whether the fill is done, which has a slot.
pub(crate) fn is_done<R: Abort>(rt: &R, filled: Result<(), Unfilled>) -> bool {
    match filled {
        Ok(()) => true,
        Err(Unfilled::Closed) => false,
        Err(Unfilled::NoSlot(_upquery, _)) => panic!(rt; "there is no slot"),
    }
}

impl View {
    pub(crate) fn open<R: AllocGlobal + Abort>(rt: &R, shape: &IdShape) -> View {
        View::try_open(rt, shape).expect(rt, "memory")
    }

    /// With another reader.
    pub(crate) fn open_pair<R: AllocGlobal + Abort>(rt: &R, shape: &IdShape) -> (View, IdReader)
        ensures { let (view, reader) = result in id_table_of reader ≡ view }
    {
        let (map, writer, mut readers) = IdMap::open(rt.alloc(), shape).expect(rt, "memory");
        let count = readers.len();
        let other = readers.pop().expect(rt, "a reader");
        let reader = readers.pop().expect(rt, "a reader");
        let view = View {
            map,
            writer,
            reader,
            readers: count,
        };
        (view, other)
    }

    pub(crate) fn map(&self) -> &IdMap
        ensures { result.now ≡ self.now }
    {
        &self.map
    }

    fn try_open<R: AllocGlobal + Abort>(rt: &R, shape: &IdShape) -> Result<View, OpenFault> {
        let (map, writer, mut readers) = IdMap::open(rt.alloc(), shape)?;
        let count = readers.len();
        let reader = readers.pop().expect(rt, "a reader");
        Ok(View {
            map,
            writer,
            reader,
            readers: count,
        })
    }

    pub(crate) fn close(self) {
        let View {
            map: _map,
            writer: _writer,
            reader: _reader,
            readers: _,
        } = self;
    }

    /// There is no map of that shape.
    pub(crate) fn is_bad<R: AllocGlobal + Abort>(rt: &R, shape: &IdShape) {
        assert!(rt; shape.is_bad());
        match View::try_open(rt, shape) {
            Ok(_view) => panic!(rt; "the map opens"),
            Err(fault) => assert!(rt; matches!(fault, OpenFault::BadSize)),
        }
    }

    pub(crate) fn sizes<R: Abort>(&self, rt: &R, ways: u32, rows: u32, readers: usize) {
        is_same(rt, &self.map.ways(), &ways);
        is_same(rt, &self.map.rows(), &rows);
        is_same(rt, &self.readers, &readers);
    }

    /// What the laws need holds of the writer.
    pub(crate) fn is_tied(&self) {
        self.writer.is_tied();
    }

    /// The reader is granted a claim.
    pub(crate) fn claims<R: Abort>(&mut self, rt: &R, id: u64)
        requires { 0 < id }
        ensures { self.new ≡ self.old }
    {
        assert!(rt; is_granted(self.map.request(&mut self.reader, id)));
    }

    /// The reader is granted none.
    pub(crate) fn claims_nothing<R: Abort>(&mut self, rt: &R, id: u64)
        requires { 0 < id }
        ensures { self.new ≡ self.old }
    {
        assert!(rt; !is_granted(self.map.request(&mut self.reader, id)));
    }

    /// A find has just these rows.
    pub(crate) fn finds<R: Abort>(&mut self, rt: &R, id: u64, wanted: &[Row])
        requires { 0 < id }
        ensures { self.new ≡ self.old }
    {
        let mut rows = RowSet::new();
        let found = self.map.find(&mut self.reader, id, &mut rows);
        is_same(rt, &found, &FoundId::Rows);
        is_set(rt, rows.as_slice(), wanted);
    }

    /// A find has none, and leaves the caller's room as it was.
    pub(crate) fn misses<R: Abort>(&mut self, rt: &R, id: u64, why: FoundId)
        requires { 0 < id }
        ensures { self.new ≡ self.old }
    {
        let mut rows = RowSet::of(&[row(1, 1)]).expect(rt, "a row");
        let found = self.map.find(&mut self.reader, id, &mut rows);
        is_same(rt, &found, &why);
        is_set(rt, rows.as_slice(), &[row(1, 1)]);
    }

    /// The writer's own look has just these rows.
    pub(crate) fn sees<R: Abort>(&mut self, rt: &R, id: u64, wanted: &[Row])
        requires { 0 < id }
    {
        let mut rows = RowSet::new();
        let seen = self.map.look(&mut self.writer, id, &mut rows);
        is_same(rt, &seen, &Looked::Rows);
        let way = self.map.way_of(&mut self.writer, id).expect(rt, "a way");
        assert!(rt; way < self.map.ways());
        is_same(rt, &self.map.id_at(&mut self.writer, way), &Some(id));
        is_set(rt, rows.as_slice(), wanted);
    }

    /// The writer's own look has none, and leaves the caller's room as it was.
    pub(crate) fn overlooks<R: Abort>(&mut self, rt: &R, id: u64, why: Looked)
        requires { 0 < id }
        ensures { self.new ≡ self.old }
    {
        let mut rows = RowSet::of(&[row(1, 1)]).expect(rt, "a row");
        let seen = self.map.look(&mut self.writer, id, &mut rows);
        is_same(rt, &seen, &why);
        is_set(rt, rows.as_slice(), &[row(1, 1)]);
        let is_absent = self.map.way_of(&mut self.writer, id).is_none();
        is_same(rt, &is_absent, &(why == Looked::Absent));
    }

    /// An id is claimed, admitted and filled.
    pub(crate) fn takes_in<R: Abort>(&mut self, rt: &R, id: u64, rows: &[Row])
        requires { 0 < id }
        ensures { self.new ≡ self.old }
    {
        self.claims(rt, id);
        self.admits(rt, id, rows);
    }

    /// An id is admitted: its upquery.
    pub(crate) fn admit<R: Abort>(&mut self, rt: &R, id: u64) -> Upquery
        requires { 0 < id }
        ensures upquery { result.table ≡ self.new }
        ensures stays { self.new ≡ self.old }
    {
        self.map.admit(&mut self.writer, id).expect(rt, "admitted")
    }

    /// An id is admitted and filled.
    pub(crate) fn admits<R: Abort>(&mut self, rt: &R, id: u64, rows: &[Row])
        requires { 0 < id }
        ensures { self.new ≡ self.old }
    {
        let upquery = self.admit(rt, id);
        self.fills(rt, upquery, rows);
    }

    pub(crate) fn fills<R: Abort>(&mut self, rt: &R, upquery: Upquery, rows: &[Row])
        requires { upquery.table ≡ self.old }
        ensures { self.new ≡ self.old }
    {
        let set = set_of(rt, &self.map, rows);
        assert!(rt; is_done(rt, self.map.fill(&mut self.writer, upquery, set.as_slice())));
    }

    /// An id isn't admitted.
    pub(crate) fn refuses<R: Abort>(&mut self, rt: &R, id: u64, wanted: Refused)
        requires { 0 < id }
    {
        match self.map.admit(&mut self.writer, id) {
            Ok(_upquery) => panic!(rt; "the id is admitted"),
            Err(why) => is_same(rt, &why, &wanted),
        }
    }

    /// An id is admitted to that way by that ticket number, and its upquery withdrawn.
    pub(crate) fn withdraws<R: Abort>(&mut self, rt: &R, id: u64, way: u32, number: u64)
        requires { 0 < id }
    {
        let upquery = self.admit(rt, id);
        is_same(rt, &upquery.id(), &id);
        is_same(rt, &upquery.way(), &way);
        is_same(rt, &upquery.number(), &number);
        match self.map.withdraw(&mut self.writer, upquery) {
            Withdrawn::Done => {}
            Withdrawn::Closed => panic!(rt; "the upquery isn't open"),
            Withdrawn::Worn(_upquery) => panic!(rt; "the number is worn out"),
        }
    }

    /// An id is admitted, its upquery can't be withdrawn, and is filled.
    pub(crate) fn fills_worn<R: Abort>(&mut self, rt: &R, id: u64)
        requires { 0 < id }
    {
        let upquery = self.admit(rt, id);
        match self.map.withdraw(&mut self.writer, upquery) {
            Withdrawn::Worn(upquery) => self.fills(rt, upquery, &[]),
            Withdrawn::Done | Withdrawn::Closed => panic!(rt; "the upquery is withdrawn"),
        }
    }

    /// An id is admitted and finds no slot, of which ids have so many. Then another id is evicted, and
    /// the upquery filled.
    pub(crate) fn fills_late<R: Abort>(&mut self, rt: &R, id: u64, live: u32, other: u64)
        requires id { 0 < id }
        requires other { 0 < other }
    {
        let upquery = self.admit(rt, id);
        match self.map.fill(&mut self.writer, upquery, &[]) {
            Err(Unfilled::NoSlot(upquery, counts)) => {
                is_same(rt, &counts.live, &live);
                self.evicts(rt, other, Evict::Evicted);
                self.fills(rt, upquery, &[]);
            }
            Ok(()) | Err(Unfilled::Closed) => panic!(rt; "there is a slot"),
        }
    }

    /// While an id's upquery is open, it isn't evicted, found, seen or claimed. Then it is filled.
    pub(crate) fn is_pending<R: Abort>(&mut self, rt: &R, id: u64, rows: &[Row])
        requires { 0 < id }
    {
        let upquery = self.admit(rt, id);
        self.evicts(rt, id, Evict::Nothing);
        self.misses(rt, id, FoundId::Pending);
        self.overlooks(rt, id, Looked::Pending);
        self.claims_nothing(rt, id);
        self.fills(rt, upquery, rows);
    }

    /// An id is admitted, and its upquery ends with the map.
    pub(crate) fn ends_with<R: Abort>(self, rt: &R, id: u64)
        requires { 0 < id }
    {
        let mut view = self;
        let upquery = view.admit(rt, id);
        let View {
            map,
            writer: _writer,
            reader: _reader,
            readers: _,
        } = view;
        is_same(rt, &upquery.end(&map.close()), &id);
    }

    pub(crate) fn evicts<R: Abort>(&mut self, rt: &R, id: u64, wanted: Evict)
        requires { 0 < id }
        ensures { self.new ≡ self.old }
    {
        is_same(rt, &self.map.evict(&mut self.writer, id), &wanted);
    }

    /// Whether the writer is told that the id was found.
    pub(crate) fn uses<R: Abort>(&mut self, rt: &R, id: u64, wanted: bool)
        requires { 0 < id }
        ensures { self.new ≡ self.old }
    {
        is_same(rt, &self.map.uses(&mut self.writer, id), &wanted);
    }

    /// The same of the id's way, whichever that is.
    pub(crate) fn uses_its_way<R: Abort>(&mut self, rt: &R, id: u64, wanted: bool)
        requires { 0 < id }
        ensures { self.new ≡ self.old }
    {
        let way = self.map.way_of(&mut self.writer, id).expect(rt, "a way");
        let ways = self.map.ways();
        assert!(rt; way < ways);
        is_same(rt, &self.map.uses_way(&mut self.writer, way), &wanted);
    }

    /// Whom the writer chooses for the id.
    pub(crate) fn chooses<R: Abort>(&mut self, rt: &R, id: u64, wanted: Option<u64>)
        ensures { self.new ≡ self.old }
    {
        is_same(rt, &self.map.choose(&mut self.writer, id), &wanted);
    }

    pub(crate) fn updates<R: Abort>(
        &mut self,
        rt: &R,
        id: u64,
        deltas: &[Delta],
        wanted: Result<(), IdFault<UpdateFault>>,
    )
        requires { 0 < id }
        ensures { self.new ≡ self.old }
    {
        let batch = batch_of(rt, deltas);
        let updated = self.map.update(&mut self.writer, id, batch.as_slice());
        is_same(rt, &updated, &wanted);
    }

    pub(crate) fn replaces<R: Abort>(
        &mut self,
        rt: &R,
        id: u64,
        rows: &[Row],
        wanted: Result<(), IdFault<ReplaceFault>>,
    )
        requires { 0 < id }
        ensures { self.new ≡ self.old }
    {
        let set = set_of(rt, &self.map, rows);
        let replaced = self.map.replace(&mut self.writer, id, set.as_slice());
        is_same(rt, &replaced, &wanted);
    }

    /// The reader hears what the writer has seen, by one note of two, and the writer is gathered with it.
    pub(crate) fn tells(&mut self) {
        let told = self.map.note_writer(&mut self.writer);
        let (told, other) = self.map.split_note(&mut self.reader, told);
        self.map.hear(&mut self.reader, other);
        self.map.hear(&mut self.reader, told);
        let own = self.map.note(&mut self.reader);
        self.map.hear(&mut self.reader, own);
        self.map.gather(&mut self.writer, &mut self.reader);
    }

    pub(crate) fn note_of_writer(&mut self) -> IdNote
        ensures note { note_table_of result ≡ self.new }
        ensures stays { self.new ≡ self.old }
    {
        self.map.note_writer(&mut self.writer)
    }

    /// The writer hears a note.
    pub(crate) fn hears(&mut self, note: IdNote)
        requires { note_table_of note ≡ self.old }
        ensures { self.new ≡ self.old }
    {
        self.map.hear_writer(&mut self.writer, note);
    }

    /// The id is admitted and filled by a call that gives that out.
    pub(crate) fn fills_reclaiming<R: Abort>(
        &mut self,
        rt: &R,
        id: u64,
        rows: &[Row],
        had: &mut RowSet,
        wanted: Reclaimed,
    )
        requires { 0 < id }
    {
        let upquery = self.admit(rt, id);
        let set = set_of(rt, &self.map, rows);
        match self
            .map
            .fill_reclaiming(&mut self.writer, upquery, set.as_slice(), had)
        {
            Ok(given) => is_same(rt, &given, &wanted),
            Err(Unfilled::NoSlot(_upquery, _)) => panic!(rt; "there is no slot"),
            Err(Unfilled::Closed) => panic!(rt; "the upquery isn't open"),
        }
    }

    pub(crate) fn updates_reclaiming<R: Abort>(
        &mut self,
        rt: &R,
        id: u64,
        deltas: &[Delta],
        had: &mut RowSet,
        wanted: Reclaimed,
    )
        requires { 0 < id }
        ensures { self.new ≡ self.old }
    {
        let batch = batch_of(rt, deltas);
        let given = self
            .map
            .update_reclaiming(&mut self.writer, id, batch.as_slice(), had);
        is_same(rt, &given, &Ok(wanted));
    }

    pub(crate) fn replaces_reclaiming<R: Abort>(
        &mut self,
        rt: &R,
        id: u64,
        rows: &[Row],
        had: &mut RowSet,
        wanted: Reclaimed,
    )
        requires { 0 < id }
    {
        let set = set_of(rt, &self.map, rows);
        let given = self
            .map
            .replace_reclaiming(&mut self.writer, id, set.as_slice(), had);
        is_same(rt, &given, &Ok(wanted));
    }

    pub(crate) fn reaps<R: Abort>(&mut self, rt: &R, had: &mut RowSet, wanted: Reaped)
        ensures { self.new ≡ self.old }
    {
        is_same(rt, &self.map.reap(&mut self.writer, had), &wanted);
    }
}
