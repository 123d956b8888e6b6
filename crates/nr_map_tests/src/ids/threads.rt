//! A writer and two readers, each in a thread. What is asserted does not depend on how their steps
//! fall.
ghost use Rattle.std.specs.Prelude.{◌≡◌, ◌<◌};
ghost use Rattle.nr_idmap.specs.Keepers.{id_table_of};

use crate::ids::view::{SMALL, batch_of, is_done, is_granted, plus, row, set_of};
use nr_idmap::{FoundId, IdFault, IdMap, IdReader, IdShape, IdWriter, Refused, UpdateFault};
use nr_model::{Row, RowSet};
use std::process::Abort;
use std::sync::atomic::{AtomicU64, Ordering};
use std::thread::{Threads, join};

/// How often a reader wants an id.
const TURNS: u64 = 2_000_000;

/// How often the writer serves at most, should the readers not begin.
const MOST_TURNS: u64 = 100 * TURNS;

/// So few that a way is one id's and then the other's again and again.
const IDS: u64 = 2;

/// The set that is put for an id with that mark. An update adds a row of the same mark.
fn marked(id: u64, mark: u64) -> [Row; 2]
    requires { id < 100 }
{
    [row(id, mark), row(id + IDS, mark)]
}

/// Whether some set of the id's has these rows.
fn is_of(id: u64, rows: &[Row]) -> bool {
    let mark = rows.first().map_or(0, |first| first.b);
    rows.len() >= 2
        && rows
            .iter()
            .all(|row| row.a % IDS == id % IDS && row.b == mark)
}

/// What the threads share beside the map.
#[derive(Drop)]
struct Desk {
    /// The id whose claim is open, or 0. The ids are one group's, so there is one claim at most.
    claimed: AtomicU64,
    /// How many readers still want ids.
    wanting: AtomicU64,
}

/// A reader that wants ids.
#[derive(Drop)]
struct Finder<'a> {
    map: &'a IdMap,
    reader: IdReader,
    desk: &'a Desk,
    ghost own: { id_table_of reader ≡ map.now },
}

impl Finder<'_> {
    fn wants_often<R: Abort>(mut self, rt: &R) {
        for turn in 0..TURNS {
            self.wants(rt, 1 + turn % IDS);
        }
        self.desk.wanting.fetch_sub(1, Ordering::SeqCst);
    }

    fn wants<R: Abort>(&mut self, rt: &R, id: u64)
        requires { 0 < id }
    {
        let mut rows = RowSet::new();
        match self.map.find(&mut self.reader, id, &mut rows) {
            FoundId::Rows => assert!(rt; is_of(id, rows.as_slice())),
            FoundId::Pending | FoundId::Moved => {}
            FoundId::Absent => {
                if is_granted(self.map.request(&mut self.reader, id)) {
                    self.desk.claimed.store(id, Ordering::SeqCst);
                }
            }
        }
    }
}

/// The writer, which answers claims, updates and evicts.
#[derive(Drop)]
struct Keeping<'a> {
    map: &'a IdMap,
    writer: IdWriter,
    desk: &'a Desk,
    /// By which mark each id was filled last.
    marks: [u64; 3],
    ghost own: { writer.table ≡ map.now },
}

impl Keeping<'_> {
    fn serves_often<R: Abort>(mut self, rt: &R) {
        for turn in 0..MOST_TURNS {
            if self.desk.wanting.load(Ordering::SeqCst) == 0 {
                break;
            }
            self.answers(rt, turn);
            self.updates(rt, 1 + turn % IDS);
            self.evicts(1 + turn / 2 % IDS);
        }
    }

    fn evicts(&mut self, id: u64)
        requires { 0 < id }
    {
        self.map.evict(&mut self.writer, id);
    }

    /// Fills the id that is claimed.
    fn answers<R: Abort>(&mut self, rt: &R, mark: u64) {
        let id = self.desk.claimed.swap(0, Ordering::SeqCst);
        if id == 0 || id > IDS {
            return;
        }
        let set = set_of(rt, self.map, &marked(id, mark));
        match self.map.admit(&mut self.writer, id) {
            Ok(upquery) => {
                assert!(rt; is_done(rt, self.map.fill(&mut self.writer, upquery, set.as_slice())));
                self.marks[id as usize] = mark;
            }
            // It is admitted once an id is evicted.
            Err(Refused::Full) => self.desk.claimed.store(id, Ordering::SeqCst),
            Err(Refused::NoClaim | Refused::Named(_)) => panic!(rt; "the claim isn't open"),
        }
    }

    /// Adds a row to the id's, if it has room for one.
    fn updates<R: Abort>(&mut self, rt: &R, id: u64)
        requires id { 0 < id }
        requires few { id < 3 }
    {
        let batch = batch_of(rt, &[plus(id + 2 * IDS, self.marks[id as usize])]);
        let updated = self.map.update(&mut self.writer, id, batch.as_slice());
        assert!(rt; !matches!(updated, Err(IdFault::Refused(UpdateFault::NoSlot(_)))));
    }
}

fn both_want<R: Threads + Abort + Sync>(rt: &R, one: Finder<'_>, two: Finder<'_>) {
    join(rt, move || one.wants_often(rt), move || two.wants_often(rt));
}

fn all_at_once<R: Threads + Abort + Sync>(
    rt: &R,
    keeping: Keeping<'_>,
    one: Finder<'_>,
    two: Finder<'_>,
) {
    join(
        rt,
        move || keeping.serves_often(rt),
        move || both_want(rt, one, two),
    );
}

fn race<R: Threads + Abort + Sync>(
    rt: &R,
    map: &IdMap,
    writer: IdWriter,
    first: IdReader,
    second: IdReader,
)
    requires writer { writer.table ≡ map.now }
    requires readers { (id_table_of first ≡ map.now) × (id_table_of second ≡ map.now) }
{
    let desk = &Desk {
        claimed: AtomicU64::new(0),
        wanting: AtomicU64::new(2),
    };
    let one = Finder {
        map,
        reader: first,
        desk,
    };
    let two = Finder {
        map,
        reader: second,
        desk,
    };
    let keeping = Keeping {
        map,
        writer,
        desk,
        marks: [0; 3],
    };
    all_at_once(rt, keeping, one, two);
}

// With a slot for each id, for each of the two readers, and for a write.
#[test]
fn found_sets_are_of_their_ids(rt: HostRuntime) {
    let shape = IdShape {
        slots: 5,
        readers: 2,
        ..SMALL
    };
    let (map, writer, mut readers) = IdMap::open(rt.alloc(), &shape).expect(&rt, "memory");
    let one = readers.pop().expect(&rt, "a reader");
    let two = readers.pop().expect(&rt, "a reader");
    race(&rt, &map, writer, one, two);
}
