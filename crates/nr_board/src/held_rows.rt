//! The rows of the slot that a reader holds, as a set takes them.
ghost use Rattle.std.specs.Prelude.{◌≡◌, ◌<◌, ◌≤◌, ◌-◌, ◌*◌, length, drop, slice_get, Some};
ghost use Rattle.nr_board.specs.Callers.{Rests, token};
ghost use Rattle.nr_board.specs.Holds.{HeldAs};
ghost use Rattle.nr_board.specs.Seats.{HoldsAt};
ghost use Rattle.nr_board.specs.Views.{rows_held, view_of};

use crate::board::{Board, Seat};
use crate::holds::Held;
use crate::only_proved::only_proved;
use nr_model::{Row, RowRoom, RowSource};

/// A reader's seat, and where the first content word of its slot stands: a source of the slot's rows from
/// `FROM` on. That is part of the type, so that a source of all rows adds nothing to their places.
#[derive(Drop)]
pub struct HeldRows<'a, const FROM: usize> {
    pub board: &'a Board,
    pub seat: &'a mut Seat,
    pub begin: u64,
}

impl<const FROM: usize> RowSource for HeldRows<'_, FROM> {
    ghost use Rattle.std.specs.Prelude.{drop};
    ghost use Rattle.nr_board.specs.HeldRows.{Gave, gives_more, gives_none};
    ghost use Rattle.nr_board.specs.Seats.{HoldsAt};
    ghost use Rattle.nr_board.specs.Views.{rows_held, view_of};

    ghost rows = { λ source. drop FROM (rows_held (view_of source.seat.now).role) };

    ghost is_ready = { λ source _. HoldsAt source.board.now source.begin source.seat.now };

    ghost gave = { Gave };

    fn give(&mut self, place: usize) -> Row {
        let board = self.board;
        only_proved(board.rows());
        board.read_row(self.seat, self.begin, (FROM + place) as u64)
    }

    ghost gave_none = { gives_none };

    ghost gave_more = { gives_more };
}

impl Board {
    /// Writes the rows that a reader holds, from that one on.
    #[inline(always)]
    pub fn copy_from<const FROM: usize, R: RowRoom>(
        &self,
        seat: &mut Seat,
        held: Held,
        rows: &mut R,
    )
        requires held { HeldAs self.now held seat.old }
        requires from { FROM ≤ length (rows_held (view_of seat.old).role) }
        ensures held { HeldAs self.now held seat.new }
        ensures rows { R.shows rows.new (drop FROM (rows_held (view_of seat.old).role)) }
        ensures same { rows_held (view_of seat.new).role ≡ rows_held (view_of seat.old).role }
        ensures rests { Rests (2 * (length (rows_held (view_of seat.old).role) - FROM)) (token seat.old) (token seat.new) }
        ensures hold { (token seat.new).holds ≡ (token seat.old).holds }
        ensures marks { (view_of seat.new).marks ≡ (view_of seat.old).marks }
    {
        only_proved(self.rows());
        let mut source = HeldRows::<FROM> {
            board: self,
            seat,
            begin: held.begin,
        };
        rows.refill(held.count as usize - FROM, &mut source);
    }

    /// A row of that set.
    pub fn read_row(&self, seat: &mut Seat, begin: u64, i: u64) -> Row
        requires reader { HoldsAt self.now begin seat.old }
        requires i { i < length (rows_held (view_of seat.old).role) }
        ensures row { slice_get (rows_held (view_of seat.old).role) i ≡ Some result }
        ensures reader { HoldsAt self.now begin seat.new }
        ensures rows { rows_held (view_of seat.new).role ≡ rows_held (view_of seat.old).role }
        ensures rests { Rests 2 (token seat.old) (token seat.new) }
        ensures hold { (token seat.new).holds ≡ (token seat.old).holds }
        ensures marks { (view_of seat.new).marks ≡ (view_of seat.old).marks }
        ensures says { (view_of seat.new).says ≡ (view_of seat.old).says }
    {
        only_proved(self.rows());
        let a = self.read(seat, begin, 2 * i + 1);
        let b = self.read(seat, begin, 2 * i + 2);
        Row { a, b }
    }
}
