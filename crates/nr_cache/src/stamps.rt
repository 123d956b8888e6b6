//! The stamps of values, by which those below a caller's bound go first.
ghost use Rattle.std.specs.Prelude.{◌≡◌, ◌≢◌, ◌<◌, ◌↔◌, ℕ, IfNone, IfSome, IsTrue};
ghost use Rattle.nr_cache.specs.Stamps.{IsFirstStale, IsStale, LooksAround, NoneIsStale, first_stamp, stamp_at};

use nr_idmap::{IdMap, IdWriter, Looked};
use nr_model::{Row, SortedRows};

/// How many ways are looked at for one that goes first.
const GLANCE: u32 = 8;

/// The first of the next eight ways from the hand on, if any, that has a value with a stamp below the bound and
/// isn't the newcomer's. Takes no step for the bound 0; else 1 of the directory for each way that it looks at,
/// and a look's for each that has a value.
pub(crate) fn stale_way(
    map: &IdMap,
    writer: &mut IdWriter,
    found: &mut SortedRows,
    hand: u32,
    newcomer: u32,
    bound: u64,
) -> Option<u32>
    requires own { writer.old.table ≡ map.now }
    ensures own { writer.new.table ≡ map.now }
    ensures looks { LooksAround writer.old writer.new }
    ensures some { IfSome result (λ way. IsFirstStale hand bound newcomer writer.new way) }
    ensures none { IfNone result (NoneIsStale hand bound newcomer writer.new) }
{
    if bound == 0 {
        return None;
    }
    for way in hand..map.ways() {
        if way - hand >= GLANCE {
            return None;
        }
        if goes_first(map, writer, found, way, newcomer, bound) {
            return Some(way);
        }
    }
    None
}

// Whether a way, which isn't the newcomer's, has a value with a stamp below the bound.
fn goes_first(
    map: &IdMap,
    writer: &mut IdWriter,
    found: &mut SortedRows,
    way: u32,
    newcomer: u32,
    bound: u64,
) -> bool
    requires own { writer.old.table ≡ map.now }
    requires way { way < map.now.map.shape.keys }
    ensures own { writer.new.table ≡ map.now }
    ensures looks { LooksAround writer.old writer.new }
    ensures same { (other : ℕ) → stamp_at writer.new other ≡ stamp_at writer.old other }
    ensures stale { IsTrue result ↔ (way ≢ newcomer) × IsStale bound (stamp_at writer.new way) }
{
    if way == newcomer {
        return false;
    }
    let stamp = stamp_in(map, writer, found, way);
    0 < stamp && stamp < bound
}

// The stamp of a way's value, or 0.
fn stamp_in(map: &IdMap, writer: &mut IdWriter, found: &mut SortedRows, way: u32) -> u64
    requires own { writer.old.table ≡ map.now }
    requires way { way < map.now.map.shape.keys }
    ensures own { writer.new.table ≡ map.now }
    ensures looks { LooksAround writer.old writer.new }
    ensures same { (other : ℕ) → stamp_at writer.new other ≡ stamp_at writer.old other }
    ensures stamp { result ≡ stamp_at writer.new way }
{
    writer.is_tied();
    let named = map.id_at(writer, way);
    writer.is_tied();
    let Some(id) = named else {
        return 0;
    };
    let looked = map.look(writer, id, found);
    writer.is_tied();
    match looked {
        Looked::Rows => stamp_of(found.as_slice()),
        Looked::Pending => 0,
        // The way has the id.
        Looked::Absent => unreachable!(),
    }
}

fn stamp_of(rows: &[Row]) -> u64
    ensures { result ≡ first_stamp rows.now }
{
    match rows {
        [row, ..] => row.a,
        [] => 0,
    }
}
