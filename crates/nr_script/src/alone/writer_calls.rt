//! The calls of the writer.
ghost use Rattle.std.specs.Prelude.{◌≡◌, ◌<◌};
ghost use Rattle.nr_model.specs.Maps.{SetFits};
ghost use Rattle.nr_script.specs.WriterCalls.{model_call, writer_key};
ghost use Rattle.nr_script.specs.WriterMakes.{WriterMakes};

use crate::alone::answer::{Answer, Said};
use nr_map::{Cancel, Evict, FillFault, Found, ReaderMap, ReplaceFault, UpdateFault, Writer};
use nr_model::{Batch, RowSet};

/// A call of the writer's, at a key. Its rows and its batch lie elsewhere.
#[derive(Drop)]
pub enum WriterCall<'a> {
    /// Looks the key up.
    Find(u32),
    /// Answers the request of that number with the key's rows.
    Fill(u32, u64, &'a RowSet),
    /// Applies a batch to the key's rows.
    Update(u32, &'a Batch),
    /// Puts the set whole in place of the key's rows.
    Replace(u32, &'a RowSet),
    /// Makes the key missing again.
    Evict(u32),
    /// Takes the request of the key back.
    Cancel(u32),
}

/// A call of the writer's, with its answer. The rows of a find are written into the set.
pub(crate) fn call_writer<'a>(
    map: &ReaderMap,
    writer: &mut Writer,
    call: &WriterCall<'_>,
    rows: &'a mut RowSet,
) -> Answer<'a>
    requires own { writer.old.table ≡ map.now }
    requires key { writer_key call.now < map.now.shape.keys }
    requires fits { SetFits map.now.shape.rows (model_call call.now) }
    ensures { WriterMakes (model_call call.now) writer.old writer.new result }
{
    let said = match call {
        WriterCall::Find(key) => match map.look(writer, *key, rows) {
            Found::Rows => Said::Rows(rows),
            Found::Hole => Said::Hole,
        },
        WriterCall::Fill(key, number, set) => match map.fill(writer, *key, *number, set) {
            Ok(()) => Said::Done,
            Err(FillFault::NotAsked) => Said::NotAsked,
            Err(FillFault::Already) => Said::Already,
            Err(FillFault::Stale) => Said::Stale,
            Err(FillFault::NoSlot(_)) => Said::NoSlot,
        },
        WriterCall::Update(key, batch) => match map.update(writer, *key, batch) {
            Ok(()) => Said::Done,
            Err(UpdateFault::Dropped) => Said::Dropped,
            Err(UpdateFault::NoRow) => Said::NoRow,
            Err(UpdateFault::TooMany) => Said::TooMany,
            Err(UpdateFault::NoSlot(_)) => Said::NoSlot,
        },
        WriterCall::Replace(key, set) => match map.replace(writer, *key, set) {
            Ok(()) => Said::Done,
            Err(ReplaceFault::Dropped) => Said::Dropped,
            Err(ReplaceFault::NoSlot(_)) => Said::NoSlot,
        },
        WriterCall::Evict(key) => match map.evict(writer, *key) {
            Evict::Evicted => Said::Evicted,
            Evict::Nothing => Said::Nothing,
        },
        WriterCall::Cancel(key) => match map.cancel(writer, *key) {
            Cancel::Cancelled => Said::Cancelled,
            Cancel::Nothing => Said::Nothing,
            Cancel::Worn => Said::Worn,
        },
    };
    Answer { said }
}
