//! What a reader, a pin and a hand have in common: the token of a reader, whatever it holds.
ghost use Rattle.std.specs.Prelude.{◌≡◌, ◌↔◌, ◌<◌, ◌*◌, ◌^◌, suc, length, slice_get, true, Some};
ghost use Rattle.nr_core.specs.Marks.{acted};
ghost use Rattle.nr_board.specs.Callers.{KnowsOwn, Rests, token};
ghost use Rattle.nr_board.specs.Holds.{HeldAs, HoldsAfter, LooksAgain, finds_by_word};
ghost use Rattle.nr_board.specs.Meetings.{HasPut, HearsNote, known_to, with_step};
ghost use Rattle.nr_board.specs.Notes.{IsCaller};
ghost use Rattle.nr_board.specs.Seats.{IdlesAt};
ghost use Rattle.nr_board.specs.Views.{rows_held, view_of};
ghost use Rattle.nr_map.specs.Answers.{AsksKey, FindsIn, MarksFound};
ghost use Rattle.nr_map.specs.Pins.{FindsByPin};
ghost use Rattle.nr_map.specs.Tokens.{IsReader};

use crate::answers::Asked;
use crate::notes::Note;
use crate::reader_map::ReaderMap;
use crate::ticket::Ticket;
use nr_board::{Board, Found, Held, Own, Seat};
use nr_model::{Row, RowRoom};
use nr_words::parts;

/// A reader's seat, and what the reader says of itself.
#[derive(Drop)]
pub(crate) struct Token {
    pub(crate) seat: Seat,
    pub(crate) own: Own,
}

impl Token {
    /// The token of the reader of that index.
    pub(crate) fn of_seat(board: &Board, seat: Seat, index: u32) -> Token
        requires own { (token seat).table ≡ board.now }
        requires number { (token seat).number ≡ suc index }
        requires few { suc index < 2 ^ 32 }
        requires knows { KnowsOwn (token seat) }
        ensures seat { result.seat ≡ seat }
        ensures reader { IsReader result.seat result.own }
    {
        let own = board.own(index);
        Token { seat, own }
    }

    /// The reader's number, from 1.
    pub(crate) fn number(&self) -> u32
        requires reader { IsReader self.now.seat self.now.own }
        ensures { result ≡ (token self.now.seat).number }
    {
        self.own.index + 1
    }

    /// Looks a key up, and writes its rows where it is filled: nothing is held before and after.
    #[inline(always)]
    pub(crate) fn find<R: RowRoom>(&mut self, map: &ReaderMap, key: u32, rows: &mut R) -> Found
        requires reader { IsReader self.old.seat self.old.own }
        requires idle { IdlesAt map.now self.old.seat }
        requires key { key < map.now.shape.keys }
        ensures reader { IsReader self.new.seat self.new.own }
        ensures idle { IdlesAt map.now self.new.seat }
        ensures finds { FindsIn R.shows key (token self.old.seat) rows.old (token self.new.seat) rows.new result }
        ensures marks { MarksFound key (token self.old.seat) (token self.new.seat) result }
    {
        let Some(held) = map.board.hold_key(&mut self.seat, self.own, key) else {
            return Found::Hole;
        };
        map.board.copy_from::<0, R>(&mut self.seat, held, rows);
        map.board.let_go(&mut self.seat, self.own, held);
        Found::Rows
    }

    /// Requests a key, in 1 step: nothing is held before and after.
    pub(crate) fn ask(&mut self, map: &ReaderMap, key: u32) -> Asked
        requires reader { IsReader self.old.seat self.old.own }
        requires idle { IdlesAt map.now self.old.seat }
        requires key { key < map.now.shape.keys }
        ensures reader { IsReader self.new.seat self.new.own }
        ensures idle { IdlesAt map.now self.new.seat }
        ensures asks { AsksKey key (token self.old.seat) (token self.new.seat) result }
        ensures marks { (view_of self.new.seat).marks ≡ (view_of self.old.seat).marks }
    {
        let found = parts(map.board.ask(&mut self.seat, key));
        if found.filled {
            Asked::Filled
        } else if found.ask {
            Asked::Waiting
        } else {
            Asked::Send(Ticket::of(&map.board, key, u64::from(found.slot)))
        }
    }

    /// A row of the set that is held, in 2 steps.
    pub(crate) fn row(&mut self, map: &ReaderMap, held: Held, i: u32) -> Row
        requires held { HeldAs map.now held self.old.seat }
        requires i { i < length (rows_held (view_of self.old.seat).role) }
        ensures own { self.new.own ≡ self.old.own }
        ensures held { HeldAs map.now held self.new.seat }
        ensures row { slice_get (rows_held (view_of self.old.seat).role) i ≡ Some result }
        ensures same { rows_held (view_of self.new.seat).role ≡ rows_held (view_of self.old.seat).role }
        ensures rests { Rests 2 (token self.old.seat) (token self.new.seat) }
        ensures hold { (token self.new.seat).holds ≡ (token self.old.seat).holds }
        ensures marks { (view_of self.new.seat).marks ≡ (view_of self.old.seat).marks }
    {
        map.board.read_row(&mut self.seat, held.begin, u64::from(i))
    }

    /// A note of what the reader has seen, in 1 step. Else it stays as it is.
    pub(crate) fn note(&mut self, map: &ReaderMap) -> Note
        requires own { (token self.old.seat).table ≡ map.now }
        requires knows { KnowsOwn (token self.old.seat) }
        ensures own { self.new.own ≡ self.old.own }
        ensures step { token self.new.seat ≡ with_step (token self.old.seat) }
        ensures role { (view_of self.new.seat).role ≡ (view_of self.old.seat).role }
        ensures says { (view_of self.new.seat).says ≡ (view_of self.old.seat).says }
        ensures note { result ≡ known_to (token self.old.seat) }
    {
        Note {
            told: map.board.note(&mut self.seat),
        }
    }

    /// The reader learns, in 1 step, all that the note's maker had seen.
    pub(crate) fn hear(&mut self, map: &ReaderMap, note: Note)
        requires own { ((token self.old.seat).table ≡ map.now) × (note.table ≡ map.now) }
        requires caller { IsCaller (view_of self.old.seat).role }
        ensures own { self.new.own ≡ self.old.own }
        ensures hears { HearsNote 1 note (token self.old.seat) (token self.new.seat) }
        ensures role { (view_of self.new.seat).role ≡ (view_of self.old.seat).role }
        ensures says { (view_of self.new.seat).says ≡ (view_of self.old.seat).says }
    {
        map.board.hear_note(&mut self.seat, note.told);
    }
}
