//! What one token learns of another.
ghost use Rattle.std.specs.Prelude.{◌≡◌};
ghost use Rattle.nr_core.specs.Core.{AreNumbers};
ghost use Rattle.nr_core.specs.declared.roles.Desk.{Desk};
ghost use Rattle.nr_core.specs.declared.roles.Role.TheVariants.{Writer as writer_role};
ghost use Rattle.nr_board.specs.Callers.{KnowsOwn, map_seen, token};
ghost use Rattle.nr_board.specs.Meetings.{HearsNote, Meets, known_to, with_steps};
ghost use Rattle.nr_board.specs.Learning.{HearsOf};
ghost use Rattle.nr_board.specs.Notes.{IsCaller, IsNote, has_noted, note_of};
ghost use Rattle.nr_board.specs.Views.{carried_by, view_of};

use crate::board::{Board, Note, Seat};

impl Board {
    /// Two notes of one: the token takes it in and says twice what it said, in 3 steps. It learns
    /// nothing by that.
    pub fn split_note(&self, seat: &mut Seat, note: Note) -> (Note, Note)
        requires own { ((token seat.old).table ≡ self.now) × ((token note).table ≡ self.now) }
        requires note { IsNote note }
        ensures token { token seat.new ≡ with_steps 3 (token seat.old) }
        ensures role { (view_of seat.new).role ≡ (view_of seat.old).role }
        ensures says { (view_of seat.new).says ≡ (view_of seat.old).says }
        ensures one { let (one, _) = result in IsNote one × (known_to (token one) ≡ known_to (token note)) }
        ensures other { let (_, other) = result in IsNote other × (known_to (token other) ≡ known_to (token note)) }
    {
        self.take_note(seat, note);
        let one = self.retell(seat);
        let other = self.retell(seat);
        (one, other)
    }

    /// A token learns, in 1 step, all that another has seen, which makes a note of it, in 1 step.
    pub fn hear(&self, seat: &mut Seat, other: &mut Seat)
        requires own { ((token seat.old).table ≡ self.now) × ((token other.old).table ≡ self.now) }
        requires caller { IsCaller (view_of seat.old).role }
        requires knows { KnowsOwn (token other.old) }
        ensures meets { Meets 1 (token other.old) (token seat.old) (token seat.new) }
        ensures readers { HearsOf (note_of (view_of other.old)) (view_of seat.old) (view_of seat.new) }
        ensures numbers { (desk : Desk) → (view_of seat.old).role ≡ writer_role desk → AreNumbers self.now.shape (map_seen (token seat.new)) desk.numbers }
        ensures role { (seat.new.table_id ≡ seat.old.table_id) × ((view_of seat.new).role ≡ (view_of seat.old).role) }
        ensures says { (view_of seat.new).says ≡ (view_of seat.old).says }
        ensures other { (other.new.table_id ≡ other.old.table_id) × (other.new.me ≡ (has_noted (view_of other.old), carried_by other.old)) }
    {
        let note = self.note(other);
        self.hear_note(seat, note);
    }
}
