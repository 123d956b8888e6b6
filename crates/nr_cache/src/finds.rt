//! Finds by a reader, which take no lock.
ghost use Rattle.std.specs.Prelude.{◌≡◌, ◌<◌};
ghost use Rattle.nr_idmap.specs.IdHands.{hand_table_of};
ghost use Rattle.nr_cache.specs.Finds.{FindsValue, HoldsValue, TellsFound, tells_value};

use nr_idmap::{FoundId, IdHand, IdMap};
use nr_model::Row;

/// A value that a reader holds, with the stamp that it came with.
#[repr(C)]
#[derive(Clone, Copy, Debug, PartialEq, Eq)]
pub struct FoundValue {
    pub stamp: u64,
    pub value: u64,
}

/// The value of an id, if it has one. The reader holds it until its next find, or until it is released:
/// meanwhile it doesn't come out, whatever happens to the id. Takes the steps of a hand's `pin`: where the
/// reader holds the id's value still, 1 load of the map and 1 look at the way's mark.
pub fn find(map: &IdMap, hand: &mut IdHand, id: u64) -> Option<FoundValue>
    requires own { hand_table_of hand.old ≡ map.now }
    requires id { 0 < id }
    ensures own { hand_table_of hand.new ≡ map.now }
    ensures finds { FindsValue id hand.old hand.new result }
{
    let found = hand.pin(map, id);
    value_in(hand, found)
}

/// As `find`, and the choice of whose value goes doesn't count it: for who has just put the value, and hasn't
/// asked for it. Takes the steps of a hand's `hold`.
pub fn hold(map: &IdMap, hand: &mut IdHand, id: u64) -> Option<FoundValue>
    requires own { hand_table_of hand.old ≡ map.now }
    requires id { 0 < id }
    ensures own { hand_table_of hand.new ≡ map.now }
    ensures holds { HoldsValue id hand.old hand.new result }
{
    let found = hand.hold(map, id);
    value_in(hand, found)
}

// The value that a find left in the hand, if it found one.
fn value_in(hand: &IdHand, found: FoundId) -> Option<FoundValue>
    ensures { TellsFound hand.now found result }
{
    match found {
        FoundId::Rows => value_of(hand.rows()),
        FoundId::Pending | FoundId::Moved | FoundId::Absent => None,
    }
}

pub(crate) fn value_of(rows: &[Row]) -> Option<FoundValue>
    ensures { result ≡ tells_value rows.now }
{
    match rows {
        [row, ..] => Some(FoundValue {
            stamp: row.a,
            value: row.b,
        }),
        [] => None,
    }
}
