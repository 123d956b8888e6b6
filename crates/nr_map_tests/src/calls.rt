//! Calls of the map as tests make them, which promise no more than that a token stays the map's, and sets for them.
ghost use Rattle.std.specs.Prelude.{◌≡◌, ◌<◌};

use nr_map::{Asked, Evict, FillFault, Found, KeyKind, Reader, ReaderMap, UpdateFault, Writer};
use nr_model::{Batch, Delta, MAX_ROWS, Row, RowSet};

/// An answer to a request, whose ticket was spent: its key and its ticket number.
#[derive(Clone, Copy, Debug, PartialEq, Eq)]
pub(crate) enum Told {
    Send(u32, u64),
    Waiting,
    Filled,
}

/// What an update that was done came to.
pub(crate) const UPDATED: Option<Result<(), UpdateFault>> = Some(Ok(()));

/// The set of those rows, which are not too many.
pub(crate) fn rows_of(pairs: &[(u64, u64)]) -> RowSet {
    let mut rows = [Row { a: 0, b: 0 }; MAX_ROWS];
    for (row, (a, b)) in rows.iter_mut().zip(pairs) {
        *row = Row { a: *a, b: *b };
    }
    RowSet::of(&rows[..pairs.len().min(MAX_ROWS)]).unwrap_or(RowSet::new())
}

/// Requests a key, and spends the ticket.
pub(crate) fn ask(map: &ReaderMap, reader: &mut Reader, key: u32) -> Told
    requires own { reader.old.table ≡ map.now }
    requires key { key < map.now.shape.keys }
    ensures own { reader.new.table ≡ map.now }
{
    match map.ask(reader, key) {
        Asked::Send(ticket) => {
            let number = ticket.number();
            Told::Send(ticket.into_key(), number)
        }
        Asked::Waiting => Told::Waiting,
        Asked::Filled => Told::Filled,
    }
}

/// Finds a key's rows.
pub(crate) fn find(map: &ReaderMap, reader: &mut Reader, key: u32, rows: &mut RowSet) -> Found
    requires own { reader.old.table ≡ map.now }
    requires key { key < map.now.shape.keys }
    ensures own { reader.new.table ≡ map.now }
{
    map.find(reader, key, rows)
}

/// Whether a find of the key has just these rows.
pub(crate) fn finds(map: &ReaderMap, reader: &mut Reader, key: u32, pairs: &[(u64, u64)]) -> bool
    requires own { reader.old.table ≡ map.now }
    requires key { key < map.now.shape.keys }
    ensures own { reader.new.table ≡ map.now }
{
    let mut rows = RowSet::new();
    find(map, reader, key, &mut rows) == Found::Rows && pairs_are(&rows, pairs)
}

/// Looks a key's rows up as the writer.
pub(crate) fn look(map: &ReaderMap, writer: &mut Writer, key: u32, rows: &mut RowSet) -> Found
    requires own { writer.old.table ≡ map.now }
    requires key { key < map.now.shape.keys }
    ensures own { writer.new.table ≡ map.now }
{
    map.look(writer, key, rows)
}

/// Fills a key. `None` where the set has more rows than a key may have.
pub(crate) fn fill(
    map: &ReaderMap,
    writer: &mut Writer,
    key: u32,
    number: u64,
    rows: &RowSet,
) -> Option<Result<(), FillFault>>
    requires own { writer.old.table ≡ map.now }
    requires key { key < map.now.shape.keys }
    ensures own { writer.new.table ≡ map.now }
{
    if rows.len() > map.rows() as usize {
        return None;
    }
    Some(map.fill(writer, key, number, rows))
}

/// Updates a key. `None` where the deltas are no batch.
pub(crate) fn update(
    map: &ReaderMap,
    writer: &mut Writer,
    key: u32,
    deltas: &[Delta],
) -> Option<Result<(), UpdateFault>>
    requires own { writer.old.table ≡ map.now }
    requires key { key < map.now.shape.keys }
    ensures own { writer.new.table ≡ map.now }
{
    match Batch::of(deltas) {
        Ok(batch) => Some(map.update(writer, key, &batch)),
        Err(_) => None,
    }
}

/// Updates a key: whether that was done.
pub(crate) fn updates(map: &ReaderMap, writer: &mut Writer, key: u32, deltas: &[Delta]) -> bool
    requires own { writer.old.table ≡ map.now }
    requires key { key < map.now.shape.keys }
    ensures own { writer.new.table ≡ map.now }
{
    update(map, writer, key, deltas) == UPDATED
}

/// Evicts a key.
pub(crate) fn evict(map: &ReaderMap, writer: &mut Writer, key: u32) -> Evict
    requires own { writer.old.table ≡ map.now }
    requires key { key < map.now.shape.keys }
    ensures own { writer.new.table ≡ map.now }
{
    map.evict(writer, key)
}

/// What a key is to the writer.
pub(crate) fn state(map: &ReaderMap, writer: &mut Writer, key: u32) -> KeyKind
    requires own { writer.old.table ≡ map.now }
    requires key { key < map.now.shape.keys }
    ensures own { writer.new.table ≡ map.now }
{
    map.state(writer, key)
}

/// Whether the set has just these rows.
pub(crate) fn pairs_are(rows: &RowSet, pairs: &[(u64, u64)]) -> bool {
    rows.len() == pairs.len()
        && (0..pairs.len()).all(|i| rows.get(i)
            == Some(Row {
                a: pairs[i].0,
                b: pairs[i].1,
            }))
}

/// One row more.
pub(crate) fn plus(a: u64, b: u64) -> Delta {
    Delta {
        plus: true,
        row: Row { a, b },
    }
}

/// One row less.
pub(crate) fn minus(a: u64, b: u64) -> Delta {
    Delta {
        plus: false,
        row: Row { a, b },
    }
}
