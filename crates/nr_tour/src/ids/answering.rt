//! What the writer does with a claim.
ghost use Rattle.std.specs.Prelude.{◌≡◌, ◌<◌, IfSome};
ghost use Rattle.nr_idmap.specs.Keepers.{id_rows};
ghost use Rattle.nr_idmap.specs.Tags.{IsIdSet};

use nr_idmap::{IdMap, IdWriter, Refused, Unfilled, Upquery};
use nr_model::Row;

/// The id gets its rows. Where all slots are taken its upquery is left.
pub fn answer(
    map: &IdMap,
    writer: &mut IdWriter,
    id: u64,
    rows: &[Row],
    other: u64,
) -> Option<Upquery>
    requires own { writer.old.table ≡ map.now }
    requires ids { (0 < id) × (0 < other) }
    requires rows { IsIdSet (id_rows map.now) rows.now }
    ensures own { writer.new.table ≡ map.now }
    ensures upquery { IfSome result (λ upquery. upquery.table ≡ map.now) }
{
    match map.admit(writer, id) {
        // The upquery is sent, and kept until its answer comes.
        Ok(upquery) => match map.fill(writer, upquery, rows) {
            Ok(()) => None,
            Err(Unfilled::Closed) => None,
            // It is open still.
            Err(Unfilled::NoSlot(upquery, _)) => Some(upquery),
        },
        Err(Refused::Full) => {
            map.evict(writer, other);
            None
        }
        Err(Refused::NoClaim | Refused::Named(_)) => None,
    }
}
