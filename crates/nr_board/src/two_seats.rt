//! A step of two seats that is told the rule of both, which the table's base lacks.
ghost use Rattle.std.specs.Prelude.{◌≡◌};
ghost use Rattle.nr_board.specs.TwoSeats.{CanTakeIn};
ghost use Rattle.nr_board.specs.Views.{carried_by, view_of};

use atomic_table::{Seat, Shared, TableRule};
use std::marker::Brand;
use std::sync::atomic::Ordering::SeqCst;
use std::sync::atomic::raw::load;

/// What a seat is told that takes in another's view, and what the other is left with.
pub trait TakingIn<V> {
    // Of the view before, the other's and the view after.
    ghost then: { V → V → V → Type 0 };

    ghost spent: { V };
}

/// A load, at which the rule holds of both views. What it finds tells nothing, so it is of a word of
/// the call's own: only the base reaches those of the table.
pub fn take_in<S, V, K, P: TableRule<S, V, K>, T: TakingIn<V>>(
    words: &Shared<S, V, K, P>,
    seat: &mut Seat<S, V>,
    other: &mut Seat<S, V>,
)
    requires own { (seat.old.table_id ≡ words.now.table_id) × (other.old.table_id ≡ words.now.table_id) }
    requires can { CanTakeIn (P.holds words.now.key) seat.old.id (view_of seat.old) other.old.id (view_of other.old) T.spent (T.then (view_of seat.old) (view_of other.old)) }
    ensures own { (seat.new.table_id ≡ seat.old.table_id) × (seat.new.id ≡ seat.old.id) × (carried_by seat.new ≡ carried_by seat.old) }
    ensures told { T.then (view_of seat.old) (view_of other.old) (view_of seat.new) }
{
    let word = 0;
    unsafe { load::<Brand>(&raw const word, SeqCst) };
}
