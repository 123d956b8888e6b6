//! Calls of pins as tests make them, which promise no more than that a token stays the map's.
ghost use Rattle.std.specs.Prelude.{◌≡◌, ◌<◌, IfErr, IfOk};

use nr_map::{Pin, Reader, ReaderMap, Writer};
use nr_model::Row;

/// Pins a key. The reader comes back where it is a hole.
pub(crate) fn pin(map: &ReaderMap, reader: Reader, key: u32) -> Result<Pin, Reader>
    requires own { reader.table ≡ map.now }
    requires key { key < map.now.shape.keys }
    ensures pin { IfOk result (λ pin. pin.reader.table ≡ map.now) }
    ensures hole { IfErr result (λ reader. reader.table ≡ map.now) }
{
    map.pin(reader, key)
}

/// The row of a set that has one.
pub(crate) fn only_row(map: &ReaderMap, pin: &mut Pin) -> Option<Row>
    requires own { pin.old.reader.table ≡ map.now }
    ensures own { pin.new.reader.table ≡ map.now }
{
    if pin.len() == 1 {
        Some(pin.row(map, 0))
    } else {
        None
    }
}

/// The writer gathers a reader by its pin.
pub(crate) fn gather_pin(map: &ReaderMap, writer: &mut Writer, pin: &mut Pin)
    requires own { (writer.old.table ≡ map.now) × (pin.old.reader.table ≡ map.now) }
    ensures own { (writer.new.table ≡ map.now) × (pin.new.reader.table ≡ map.now) }
{
    map.gather_pin(writer, pin);
}

/// Ends a hold.
pub(crate) fn release(map: &ReaderMap, pin: Pin) -> Reader
    requires own { pin.reader.table ≡ map.now }
    ensures own { result.table ≡ map.now }
{
    pin.release(map)
}
