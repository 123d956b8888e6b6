//! Rows, and the calls that several chapters make.
ghost use Rattle.std.specs.Prelude.{◌≡◌, ◌<◌, ◌≤◌, length};

use nr_map::{Asked, FillFault, Reader, ReaderMap, Writer};
use nr_model::{Row, RowSet};

/// A key's rows, as the source of an answer may have them: in any order.
pub const ROWS: [Row; 2] = [Row { a: 7, b: 1 }, Row { a: 3, b: 9 }];

/// The set of those rows. `fill` takes at most `rows()` of them, so where there are more this is the
/// empty set.
pub fn set_of(map: &ReaderMap, rows: &[Row]) -> RowSet
    ensures { length result ≤ map.now.shape.rows }
{
    match RowSet::of(rows) {
        Ok(set) if set.len() <= map.rows() as usize => set,
        _ => RowSet::new(),
    }
}

/// What a request was told.
#[derive(Clone, Copy, Debug)]
pub enum Told {
    Send(u64),
    Waiting,
    Filled,
}

/// Requests a key. A ticket can't be dropped: its owner sends the upquery, with the ticket's
/// number, and spends it.
pub fn ask(map: &ReaderMap, reader: &mut Reader, key: u32) -> Told
    requires own { reader.old.table ≡ map.now }
    requires key { key < map.now.shape.keys }
    ensures { reader.new.table ≡ map.now }
{
    match map.ask(reader, key) {
        Asked::Send(ticket) => {
            let number = ticket.number();
            ticket.into_key();
            Told::Send(number)
        }
        Asked::Waiting => Told::Waiting,
        Asked::Filled => Told::Filled,
    }
}

/// Fills a key with the rows above. A fill names the number of the request that it answers; here the
/// writer's own list tells it.
pub fn fill(map: &ReaderMap, writer: &mut Writer, key: u32) -> Result<(), FillFault>
    requires own { writer.old.table ≡ map.now }
    requires key { key < map.now.shape.keys }
    ensures { writer.new.table ≡ map.now }
{
    let number = map.number(writer, key);
    map.fill(writer, key, number, &set_of(map, &ROWS))
}

/// Requests key 0 and fills it.
pub fn ask_and_fill(map: &ReaderMap, reader: &mut Reader, writer: &mut Writer)
    requires own { (reader.old.table ≡ map.now) × (writer.old.table ≡ map.now) }
    requires key { 0 < map.now.shape.keys }
    ensures { (reader.new.table ≡ map.now) × (writer.new.table ≡ map.now) }
{
    ask(map, reader, 0);
    fill(map, writer, 0).ok();
}
