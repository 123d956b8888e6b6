//! The rows of the slot that a key names, as the writer reads them.
use crate::board::{Board, Seat};
use crate::only_proved::only_proved;
use crate::rule::BegunCall;
use nr_model::{Row, RowSource};
use std::marker::PhantomData;
use std::snapshot::Snapshot;

/// The writer's seat in a call that has read how many rows there are, and where the slot's first
/// content word stands. It can read the words in their order alone.
#[derive(Drop)]
pub struct NamedRows<'a, G> {
    pub board: &'a Board,
    pub seat: &'a mut Seat,
    pub begin: u64,
    /// The seat before it read the first word, for the proof alone.
    pub before: &'a Snapshot<Seat>,
    pub given: PhantomData<G>,
}

impl<G: BegunCall> RowSource for NamedRows<'_, G> {
    ghost use Rattle.std.specs.Prelude.{◌≡◌, ◌+◌, ◌*◌};
    ghost use Rattle.std.proofs.Common.{◌∙◌, refl};
    ghost use Rattle.nr_board.specs.NamedRows.{ReadTo, rows_named};

    ghost rows = { λ source. rows_named source.board.now G.call source.seat.now };

    ghost is_ready = { λ source place. ReadTo source.board.now G.call source.begin source.before.now.value source.seat.now (2 * place + 1) };

    ghost gave = { λ first _ last. (last.seat.ghost_name ≡ first.seat.ghost_name) × (last.board.now ≡ first.board.now) × (last.begin ≡ first.begin) × (last.before.now.value ≡ first.before.now.value) };

    fn give(&mut self, place: usize) -> Row {
        let board = self.board;
        only_proved(board.rows());
        let index = 2 * place as u64 + 1;
        let a = board.read_on(self.seat, self.begin, index);
        let b = board.read_on(self.seat, self.begin, index + 1);
        Row { a, b }
    }

    ghost gave_none = { λ _. (refl, refl, refl, refl) };

    ghost gave_more = { λ _ _ _ _ a b. (b.0 ∙ a.0, b.1 ∙ a.1, b.2 ∙ a.2, b.3 ∙ a.3) };
}
