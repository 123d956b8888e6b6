//! How the writer reads the set that was put into a slot last.
ghost use Rattle.std.specs.Prelude.{◌≡◌, ◌<◌, ◌+◌, ◌*◌, length};
ghost use Rattle.nr_model.specs.Rows.{IsRowSet};
ghost use Rattle.nr_core.specs.Marks.{set_in};
ghost use Rattle.nr_board.specs.Recalls.{RecallsAt, waited};
ghost use Rattle.nr_board.specs.Views.{view_of};

use crate::board::{Board, Seat};
use crate::only_proved::only_proved;
use nr_model::{Row, RowRoom, RowSource};

/// The writer's seat, which has read how many rows the slot's set has.
#[derive(Drop)]
pub struct Recalled<'a> {
    pub board: &'a Board,
    pub seat: &'a mut Seat,
    pub slot: u32,
}

impl RowSource for Recalled<'_> {
    ghost use Rattle.nr_core.specs.Marks.{set_in};
    ghost use Rattle.nr_board.specs.RecalledRows.{GaveRecalled, gives_more, gives_none};
    ghost use Rattle.nr_board.specs.Recalls.{RecallsRows};
    ghost use Rattle.nr_board.specs.Views.{view_of};

    ghost rows = { λ source. set_in (view_of source.seat.now).marks source.slot };

    ghost is_ready = { λ source _. RecallsRows source.board.now source.slot source.seat.now };

    ghost gave = { GaveRecalled };

    fn give(&mut self, place: usize) -> Row {
        let board = self.board;
        only_proved(board.rows());
        let index = 2 * place as u64 + 1;
        let a = board.recall(self.seat, self.slot, index);
        let b = board.recall(self.seat, self.slot, index + 1);
        Row { a, b }
    }

    ghost gave_none = { gives_none };

    ghost gave_more = { gives_more };
}

impl Board {
    /// Writes the set that was put into a slot last over the rows of the caller's, by one read of
    /// each of its words.
    pub fn recall_set<R: RowRoom>(&self, seat: &mut Seat, slot: u32, rows: &mut R)
        requires recalls { RecallsAt self.now slot seat.old }
        ensures rows { R.shows rows.new (set_in (view_of seat.old).marks slot) }
        ensures row_set { IsRowSet self.now.shape.rows (set_in (view_of seat.old).marks slot) }
        ensures own { seat.new.table_id ≡ seat.old.table_id }
        ensures waits { view_of seat.new ≡ waited (2 * length (set_in (view_of seat.old).marks slot) + 1) (view_of seat.old) }
    {
        only_proved(self.rows());
        let count = self.recall(seat, slot, 0);
        let mut source = Recalled {
            board: self,
            seat,
            slot,
        };
        rows.refill(count as usize, &mut source);
    }
}
