//! What a thread does that wants an id's rows.
ghost use Rattle.std.specs.Prelude.{◌≡◌, ◌<◌};
ghost use Rattle.nr_idmap.specs.Keepers.{id_table_of};

use nr_idmap::{FoundId, IdMap, IdReader, Requested};
use nr_model::RowSet;

/// What it comes to.
#[derive(Clone, Copy, Debug)]
pub enum Outcome {
    // The rows are there.
    Have,
    // The id goes to the writer.
    Claimed(u64),
    // It tries again later.
    Later,
}

pub fn want(map: &IdMap, reader: &mut IdReader, id: u64, rows: &mut RowSet) -> Outcome
    requires own { id_table_of reader.old ≡ map.now }
    requires id { 0 < id }
    ensures own { id_table_of reader.new ≡ map.now }
{
    match map.find(reader, id, rows) {
        FoundId::Rows => Outcome::Have,
        FoundId::Pending => Outcome::Later,
        FoundId::Moved | FoundId::Absent => match map.request(reader, id) {
            // The id goes to the writer by any queue.
            Requested::Granted(claim) => Outcome::Claimed(claim.into_id()),
            Requested::Named(_) | Requested::Busy | Requested::Outrun | Requested::Worn =>
                Outcome::Later,
        },
    }
}
