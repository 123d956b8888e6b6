//! How the writer reads the set of a key.
ghost use Rattle.std.specs.Prelude.{◌≡◌, ◌+◌, ◌*◌, ◌<◌, List, [], length};
ghost use Rattle.nr_model.specs.declared.rows.Row.{Row as SetRow};
ghost use Rattle.nr_core.specs.States.{key_of};
ghost use Rattle.nr_core.specs.declared.places.Place.TheVariants.{Reading};
ghost use Rattle.nr_core.specs.Writer.{moved_to};
ghost use Rattle.nr_board.specs.NamedRows.{ReadsAll};
ghost use Rattle.nr_board.specs.Views.{desk_of, view_of};
ghost use Rattle.nr_board.specs.WriterSeats.{WritesAt};

use crate::board::{Board, Seat};
use crate::named_rows::NamedRows;
use crate::only_proved::only_proved;
use crate::rule::BegunCall;
use nr_model::RowRoom;
use std::marker::PhantomData;
use std::snapshot::Snapshot;

impl Board {
    /// Writes the set of the slot that the call's key names over the rows of the caller's, by one
    /// read of each of its words.
    pub(crate) fn read_set<G: BegunCall, R: RowRoom>(
        &self,
        seat: &mut Seat,
        slot: u32,
        rows: &mut R,
    )
        requires writer { WritesAt self.now (moved_to (desk_of (view_of seat.old).role) (Reading G.call slot [])) seat.old }
        requires slot { slot < self.now.shape.slots }
        requires key { key_of G.call < self.now.shape.keys }
        ensures { (set : List SetRow) × R.shows rows.new set × ReadsAll self.now G.call set seat.old seat.new }
    {
        only_proved(self.rows());
        let before = Snapshot::of(seat);
        let begin = self.content(slot);
        let count = self.read_on(seat, begin, 0);
        let mut source: NamedRows<G> = NamedRows {
            board: self,
            seat,
            begin,
            before: &before,
            given: PhantomData,
        };
        rows.refill(count as usize, &mut source);
    }
}
