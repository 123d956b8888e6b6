//! The table of words. It is private to this module, whose functions make one step each.
ghost use Rattle.std.specs.Prelude.{ℕ, ◌≡◌, ◌↔◌, ◌<◌, ◌≤◌, ◌^◌, ◌*◌, ◌⊎◌, ◌++◌, true, false, [], length, replicate, slice_index, IfOk, Some, if◌then◌else◌};
ghost use Rattle.nr_model.specs.Maps.{state_of};
ghost use Rattle.nr_model.specs.declared.rows.TheConstants.{MAX_ROWS};
ghost use Rattle.nr_model.specs.declared.calls.Call.TheVariants as model;
ghost use Rattle.nr_model.specs.declared.calls.Reply.TheVariants as reply;
ghost use Rattle.nr_words.specs.KeyWords.{is_filled, slot_of};
ghost use Rattle.nr_words.specs.Places.{total_of};
ghost use Rattle.nr_words.specs.SetWords.{encode};
ghost use Rattle.nr_core.specs.declared.roles.Desk.{Desk};
ghost use Rattle.nr_core.specs.declared.roles.Role.TheVariants.{Writer};
ghost use Rattle.nr_core.specs.Core.{AreNumbers};
ghost use Rattle.nr_core.specs.Given.{IsGivenCall};
ghost use Rattle.nr_core.specs.States.{key_of};
ghost use Rattle.nr_core.specs.Steps.{ask_word};
ghost use Rattle.nr_core.specs.Story.{call_of};
ghost use Rattle.nr_core.specs.Writer.{looked};
ghost use Rattle.nr_core.specs.Slots.{bound_of, content, layout, name_number, names_slot, slot_room, words_at_opening};
ghost use Rattle.nr_core.specs.Roles.{is_writer};
ghost use Rattle.nr_core.specs.Sizes.{IsShape};
ghost use Rattle.nr_board.specs.Views.{grip_of, rows_held, with_reader, next_reader, opener, view_of, carried_by};
ghost use Rattle.nr_board.specs.Callers.{Gains, Grows, Rests, map_seen, token};
ghost use Rattle.nr_core.specs.Exact.{Lists};
ghost use Rattle.nr_core.specs.Marks.{acted, set_in, with_look, with_polls};
ghost use Rattle.nr_core.specs.MarkSteps.{found_again};
ghost use Rattle.nr_core.specs.Puts.{put_number};
ghost use Rattle.nr_board.specs.Holds.{LooksAgain};
ghost use Rattle.nr_board.specs.Seats.{AnnouncesAt, IdlesAt, HoldsAt};
ghost use Rattle.nr_board.specs.Announcing.{own_words, says_at};
ghost use Rattle.nr_board.specs.Plays.{IsIdle};
ghost use Rattle.nr_board.specs.WordPlays.{HasWord, HoldsByWord, IsOwn, let_go};
ghost use Rattle.nr_board.specs.Notes.{IsCaller, IsNote, has_noted, note_of, retold, with_note};
ghost use Rattle.nr_board.specs.Ahead.{after_load, after_look};
ghost use Rattle.nr_board.specs.Kinds.{kind_of, kind_shown};
ghost use Rattle.nr_board.specs.Learning.{HearsOf};
ghost use Rattle.nr_board.specs.Meetings.{HasPut, HearsNote, Learns, known_to};
ghost use Rattle.nr_board.specs.Reaping.{ProbesAt, ProbesTo};
ghost use Rattle.nr_board.specs.Recalls.{IsWordOf, RecallsAt};
ghost use Rattle.nr_board.specs.SearchSeats.{Ends, HearsWord, IsSearching, ScansAt, SearchesOn, TriesAt, TriesTo};
ghost use Rattle.nr_board.specs.WriterSeats.{GoesOn, IsBetween, IsReading, IsPolling, IsPutting, IsPublishing, IsLeaving, IsWithdrawing, LeadsTo, PutsTo};

use crate::only_proved::only_proved;
use crate::rule::{
    Arrives, Asks, BegunCall, Confirms, Departs, FindsAgain, GivesUp, Goes, Hears, Looks,
    LooksAhead, LooksUp, Nears, Notes, Probes, Puts, Reads, Recalls, Retells, Rule, Says, Scans,
    Searches, Seats, Sees, Tries,
};
use crate::two_seats::take_in;
use crate::view::View;
use atomic_table::Table;
use nr_core::{Retired, Shape};
use nr_words::{ARRIVE, Layout, hole_word, names, naming, opening_words};
use std::alloc::{AllocError, Global};
use std::marker::Model;

/// What a token makes its steps with.
pub type Seat = atomic_table::Seat<(), View>;

/// What a table is opened with: the sizes of its map, and how many readers, the first ones, have a word
/// of their own.
#[derive(Clone, Copy)]
pub struct Plan {
    pub shape: Shape,
    pub announcers: u32,
}

/// The words of a map of one shape. Only a seat of it can make a step.
#[derive(Drop)]
pub struct Board {
    table: Table<(), View, Plan, Rule, Global>,
    plan: Plan,
}

impl Model for Board {
    ghost use Rattle.std.specs.Prelude.{◌≡◌, ◌<◌, ◌≤◌, ◌^◌, ◌+◌};
    ghost use Rattle.nr_board.specs.Callers.{Table as MapTable};

    ghost Value = { MapTable };

    ghost use Rattle.nr_words.specs.Places.{total_of};
    ghost use Rattle.nr_core.specs.Slots.{layout};
    ghost use Rattle.nr_core.specs.Sizes.{IsShape};
    ghost use Rattle.nr_board.specs.Announcing.{own_words};

    ghost view = { λ board. record { id = board.table.shared.table_id; shape = board.plan.shape; announcers = board.plan.announcers } };

    ghost invariant = { λ board. (board.table.shared.key.shape ≡ board.plan.shape)
        × (board.table.shared.table_id.words ≡ total_of (layout board.plan.shape) + own_words board.plan.announcers)
        × (0 < board.plan.shape.keys) × (board.plan.shape.keys < 2 ^ 32) × IsShape board.plan.shape
        × (board.plan.announcers ≤ board.plan.shape.readers) };
}

/// What a reader says of itself: its index, which is its number less one, and where its own word
/// stands, if it has one. The readers that have a word are the first ones.
#[derive(Clone, Copy)]
pub struct Own {
    pub index: u32,
    pub place: u64,
}

/// What a token has seen. The token that made the note counts its step, so nothing is lost where the
/// note is dropped.
#[derive(Drop)]
pub struct Note {
    seat: Seat,
}

impl Model for Note {
    ghost use Rattle.atomic_table.specs.declared.shared.Seat.{Seat as TableSeat};
    ghost use Rattle.nr_board.specs.Views.{View};

    ghost Value = { TableSeat (Unit {0}) View };

    ghost view = { λ note. note.seat };
}

impl Board {
    /// The table with the writer's token.
    pub fn open(alloc: Global, plan: Plan) -> Result<(Board, Seat), AllocError>
        requires sizes { IsShape plan.shape }
        requires keys { 0 < plan.shape.keys }
        requires few { plan.announcers ≤ plan.shape.readers }
        ensures board { IfOk result (λ (board, _). (board.shape ≡ plan.shape) × (board.announcers ≡ plan.announcers)) }
        ensures seat { IfOk result (λ (board, seat). (seat.table_id ≡ board.id) × (view_of seat ≡ opener plan)) }
    {
        let words = words_from(alloc, plan)?;
        let (table, seat) = Table::of_words(alloc, &words, &plan)?;
        Ok((Board { table, plan }, seat))
    }

    /// The sizes of the map.
    pub fn shape(&self) -> &Shape
        ensures { result.now ≡ self.now.shape }
    {
        &self.plan.shape
    }

    /// How many readers, the first ones, have a word of their own.
    pub fn announcers(&self) -> u32
        ensures value { result ≡ self.now.announcers }
        ensures few { result ≤ self.now.shape.readers }
    {
        self.plan.announcers
    }

    /// How many rows a key may have: 1 to 255.
    pub fn rows(&self) -> u32
        ensures value { result ≡ self.now.shape.rows }
        ensures positive { 0 < result }
        ensures bounded { result ≤ MAX_ROWS }
    {
        self.plan.shape.rows
    }

    /// Where the first content word of a slot stands: behind the words of all slots before it, and its
    /// departures.
    pub fn content(&self, slot: u32) -> u64
        ensures { result ≡ content self.now.shape slot 0 }
    {
        let before = Layout {
            keys: self.plan.shape.keys,
            slots: slot,
            rows: self.plan.shape.rows,
        };
        before.total() + 1
    }

    /// What a reader of that index says of itself.
    pub fn own(&self, index: u32) -> Own
        ensures index { result.index ≡ index }
        ensures place { IsOwn self.now result }
    {
        let place = if index < self.announcers() {
            self.own_word(index)
        } else {
            0
        };
        Own { index, place }
    }

    /// The writer makes the next reader.
    pub fn seat(&self, seat: &mut Seat) -> Seat
        requires own { seat.old.table_id ≡ self.now.id }
        requires writer { is_writer (view_of seat.old).role ≡ 1 }
        requires few { (view_of seat.old).made < self.now.shape.readers }
        ensures own { (seat.new.table_id ≡ seat.old.table_id) × (result.table_id ≡ seat.old.table_id) }
        ensures writer { view_of seat.new ≡ with_reader (view_of seat.old) }
        ensures reader { view_of result ≡ next_reader (view_of seat.old) }
    {
        let words = &self.table.shared;
        words.split_seat::<Seats>(seat)
    }

    /// A reader requests a key: the word as it was.
    pub fn ask(&self, seat: &mut Seat, key: u32) -> u64
        requires reader { IdlesAt self.now seat.old }
        requires key { key < self.now.shape.keys }
        ensures reader { IdlesAt self.now seat.new }
        ensures gains { Gains 1 (model.Ask key) (token seat.old) (token seat.new) (ask_word result) }
        ensures marks { (view_of seat.new).marks ≡ (view_of seat.old).marks }
    {
        let words = &self.table.shared;
        words.fetch_or::<Asks>(seat, key as usize, 1)
    }

    /// A reader arrives at a key: the word as it was. Where it is filled the reader holds the slot
    /// that it names.
    pub fn arrive(&self, seat: &mut Seat, key: u32) -> u64
        requires reader { IdlesAt self.now seat.old }
        requires key { key < self.now.shape.keys }
        ensures hole { is_filled result ≡ false → IdlesAt self.now seat.new × Gains 1 (model.Find key) (token seat.old) (token seat.new) reply.Hole }
        ensures held { is_filled result ≡ true → HoldsAt self.now (content self.now.shape (slot_of result) 0) seat.new × Gains 1 (model.Find key) (token seat.old) (token seat.new) (reply.Rows (rows_held (view_of seat.new).role)) }
        ensures marks { (view_of seat.new).marks ≡ acted (view_of seat.old).marks (put_number (view_of seat.new).seen key) }
        ensures says { (view_of seat.new).says ≡ (view_of seat.old).says }
    {
        let words = &self.table.shared;
        words.fetch_add::<Arrives>(seat, key as usize, ARRIVE)
    }

    /// A reader that holds nothing looks at a key: its word. A hole is found; a slot that the word names
    /// may be announced.
    pub fn look_at_key(&self, seat: &mut Seat, key: u32) -> u64
        requires reader { IdlesAt self.now seat.old }
        requires key { key < self.now.shape.keys }
        ensures reader { IdlesAt self.now seat.new }
        ensures hole { is_filled result ≡ false → Gains 1 (model.Find key) (token seat.old) (token seat.new) reply.Hole }
        ensures named { is_filled result ≡ true → Grows 1 [] (token seat.old) (token seat.new) }
        ensures marks { (view_of seat.new).marks ≡ (if is_filled result
            then with_look (view_of seat.old).marks key (name_number result)
            else acted (with_look (view_of seat.old).marks key (name_number result)) (put_number (view_of seat.new).seen key)) }
    {
        let words = &self.table.shared;
        words.load::<LooksUp>(seat, key as usize)
    }

    /// A reader's own word announces a slot: what it held by its word is let go.
    pub fn announce(&self, seat: &mut Seat, own: Own, slot: u32)
        requires own { (token seat.old).table ≡ self.now }
        requires place { IsOwn self.now own }
        requires word { HasWord own.index (view_of seat.old) }
        requires free { IsIdle (view_of seat.old).role ⊎ HoldsByWord self.now.shape (view_of seat.old) }
        ensures says { AnnouncesAt self.now slot seat.new }
        ensures word { HasWord own.index (view_of seat.new) }
        ensures rests { Rests 1 (token seat.old) (token seat.new) }
        ensures marks { (view_of seat.new).marks ≡ let_go (grip_of (view_of seat.old).role) (view_of seat.old).marks }
    {
        let words = &self.table.shared;
        words.swap::<Says>(seat, own.place as usize, slot as u64 + 1);
    }

    /// A second look at the key of the slot that the reader's word announces: the key's word. Where it
    /// names that slot still, the reader holds it, and the find is an entry.
    pub fn confirm(&self, seat: &mut Seat, own: Own, slot: u32, key: u32) -> u64
        requires reader { AnnouncesAt self.now slot seat.old }
        requires word { HasWord own.index (view_of seat.old) }
        requires key { key < self.now.shape.keys }
        ensures held { names_slot slot result ≡ true → HoldsAt self.now (content self.now.shape slot 0) seat.new × Gains 1 (model.Find key) (token seat.old) (token seat.new) (reply.Rows (rows_held (view_of seat.new).role)) }
        ensures hole { is_filled result ≡ false → AnnouncesAt self.now slot seat.new × Gains 1 (model.Find key) (token seat.old) (token seat.new) reply.Hole }
        ensures other { names_slot slot result ≡ false → is_filled result ≡ true → AnnouncesAt self.now slot seat.new × Grows 1 [] (token seat.old) (token seat.new) }
        ensures says { (view_of seat.new).says ≡ (view_of seat.old).says }
        ensures word { HasWord own.index (view_of seat.new) }
        ensures found { (names_slot slot result ≡ true) ⊎ (is_filled result ≡ false) → (view_of seat.new).marks ≡ acted (with_look (view_of seat.old).marks key (name_number result)) (put_number (view_of seat.new).seen key) }
        ensures not_yet { names_slot slot result ≡ false → is_filled result ≡ true → (view_of seat.new).marks ≡ with_look (view_of seat.old).marks key (name_number result) }
    {
        only_proved(own.index);
        let words = &self.table.shared;
        words.load::<Confirms>(seat, key as usize)
    }

    /// A reader's own word says nothing any more: what it held by its word is let go.
    pub fn clear(&self, seat: &mut Seat, own: Own)
        requires own { (token seat.old).table ≡ self.now }
        requires place { IsOwn self.now own }
        requires word { HasWord own.index (view_of seat.old) }
        requires free { IsIdle (view_of seat.old).role ⊎ HoldsByWord self.now.shape (view_of seat.old) }
        ensures reader { IdlesAt self.now seat.new }
        ensures word { HasWord own.index (view_of seat.new) }
        ensures rests { Rests 1 (token seat.old) (token seat.new) }
        ensures marks { (view_of seat.new).marks ≡ let_go (grip_of (view_of seat.old).role) (view_of seat.old).marks }
    {
        let words = &self.table.shared;
        words.store::<Says>(seat, own.place as usize, 0);
    }

    // Where a reader's own word lies.
    fn own_word(&self, own: u32) -> u64
        requires { own < self.now.announcers }
        ensures place { result ≡ says_at self.now.shape own }
        ensures inside { result < 2 ^ 64 }
    {
        self.layout().total() + 16 * own as u64 + 271
    }

    /// A reader reads a content word of the slot that it holds, whose first one stands at `begin`.
    pub fn read(&self, seat: &mut Seat, begin: u64, index: u64) -> u64
        requires reader { HoldsAt self.now begin seat.old }
        requires index { index < length (encode (rows_held (view_of seat.old).role)) }
        ensures value { result ≡ slice_index (encode (rows_held (view_of seat.old).role)) index }
        ensures reader { HoldsAt self.now begin seat.new }
        ensures rows { rows_held (view_of seat.new).role ≡ rows_held (view_of seat.old).role }
        ensures rests { Rests 1 (token seat.old) (token seat.new) }
        ensures hold { (token seat.new).holds ≡ (token seat.old).holds }
        ensures marks { (view_of seat.new).marks ≡ (view_of seat.old).marks }
        ensures says { (view_of seat.new).says ≡ (view_of seat.old).says }
    {
        let words = &self.table.shared;
        let place = begin + index;
        words.load::<Reads>(seat, place as usize)
    }

    /// A reader that holds that slot looks at a key: its word. Where it names that slot still, the key
    /// has the set that the reader holds, and the look is a find, answered with that set.
    pub fn look_again(&self, seat: &mut Seat, slot: u32, key: u32) -> u64
        requires reader { HoldsAt self.now (content self.now.shape slot 0) seat.old }
        requires key { key < self.now.shape.keys }
        ensures reader { HoldsAt self.now (content self.now.shape slot 0) seat.new }
        ensures role { (view_of seat.new).role ≡ (view_of seat.old).role }
        ensures same { names_slot slot result ≡ true → Gains 1 (model.Find key) (token seat.old) (token seat.new) (reply.Rows (rows_held (view_of seat.old).role)) }
        ensures other { names_slot slot result ≡ false → Grows 1 [] (token seat.old) (token seat.new) }
        ensures exact { (names_slot slot result ≡ true) ↔ HasPut key (view_of seat.old).marks.put (token seat.new) }
        ensures marks { (view_of seat.new).marks ≡ found_again (names_slot slot result) (with_look (view_of seat.old).marks key (name_number result)) }
        ensures says { (view_of seat.new).says ≡ (view_of seat.old).says }
        ensures holds { (token seat.old).holds ≡ Some slot }
        ensures fits { slot < 2 ^ 22 }
    {
        only_proved(slot);
        let words = &self.table.shared;
        words.load::<FindsAgain>(seat, key as usize)
    }

    /// The same, by whether the key has that set.
    pub fn find_again(&self, seat: &mut Seat, slot: u32, key: u32) -> bool
        requires reader { HoldsAt self.now (content self.now.shape slot 0) seat.old }
        requires key { key < self.now.shape.keys }
        ensures reader { HoldsAt self.now (content self.now.shape slot 0) seat.new }
        ensures role { (view_of seat.new).role ≡ (view_of seat.old).role }
        ensures same { result ≡ true → Gains 1 (model.Find key) (token seat.old) (token seat.new) (reply.Rows (rows_held (view_of seat.old).role)) }
        ensures other { result ≡ false → Grows 1 [] (token seat.old) (token seat.new) }
        ensures exact { (result ≡ true) ↔ HasPut key (view_of seat.old).marks.put (token seat.new) }
        ensures marks { LooksAgain key (token seat.old).holds result (view_of seat.old).marks (view_of seat.new).marks }
        ensures says { (view_of seat.new).says ≡ (view_of seat.old).says }
    {
        let word = self.look_again(seat, slot, key);
        names(word, slot)
    }

    /// A reader departs from the slot that it holds, whose first content word stands at `begin`, and
    /// that its own word doesn't announce.
    pub fn depart(&self, seat: &mut Seat, begin: u64)
        requires reader { HoldsAt self.now begin seat.old }
        requires counted { (view_of seat.old).says ≡ 0 }
        ensures reader { IdlesAt self.now seat.new }
        ensures rests { Rests 1 (token seat.old) (token seat.new) }
        ensures marks { (view_of seat.new).marks ≡ acted (view_of seat.old).marks (view_of seat.old).marks.put }
    {
        let words = &self.table.shared;
        let place = begin - 1;
        words.fetch_add::<Departs>(seat, place as usize, 1);
    }

    /// Loads the word of a key that will be found, so that it is near then: the word. The load tells
    /// nothing of the map.
    pub fn load_key(&self, seat: &mut Seat, key: u32) -> u64
        requires own { (token seat.old).table ≡ self.now }
        requires key { key < self.now.shape.keys }
        ensures step { token seat.new ≡ after_load key result (token seat.old) }
        ensures role { (view_of seat.new).role ≡ (view_of seat.old).role }
        ensures says { (view_of seat.new).says ≡ (view_of seat.old).says }
    {
        let words = &self.table.shared;
        words.load::<Nears>(seat, key as usize)
    }

    /// A reader looks at a key that it will find while it holds another's set: the key's word. The look
    /// tells nothing else.
    pub fn look_ahead(&self, seat: &mut Seat, key: u32) -> u64
        requires own { (token seat.old).table ≡ self.now }
        requires key { key < self.now.shape.keys }
        ensures step { token seat.new ≡ after_look key (name_number result) (token seat.old) }
        ensures role { (view_of seat.new).role ≡ (view_of seat.old).role }
        ensures says { (view_of seat.new).says ≡ (view_of seat.old).says }
    {
        let words = &self.table.shared;
        words.load::<LooksAhead>(seat, key as usize)
    }

    /// Loads a word of a set that will be read, so that it is near then: the word. The load tells nothing
    /// of the map.
    pub fn load_word(&self, seat: &mut Seat, place: u64) -> u64
        requires own { (token seat.old).table ≡ self.now }
        requires place { place < total_of (layout self.now.shape) }
        ensures step { token seat.new ≡ after_load place result (token seat.old) }
        ensures role { (view_of seat.new).role ≡ (view_of seat.old).role }
        ensures says { (view_of seat.new).says ≡ (view_of seat.old).says }
    {
        let words = &self.table.shared;
        words.load::<Nears>(seat, place as usize)
    }

    /// The writer looks at the key of a call: its word.
    pub fn look<G: BegunCall>(&self, seat: &mut Seat, key: u32) -> u64
        requires writer { IsBetween self.now seat.old }
        requires given { IsGivenCall (bound_of self.now.shape) G.call }
        requires call { key ≡ key_of G.call }
        requires key { key < self.now.shape.keys }
        ensures leads { (desk : Desk) → (view_of seat.old).role ≡ Writer desk → LeadsTo self.now (call_of G.call) (looked self.now.shape desk G.call result) seat.old seat.new }
        ensures marks { (view_of seat.new).marks ≡ with_polls (view_of seat.old).marks [] }
        ensures heard { (view_of seat.new).heard ≡ (view_of seat.old).heard }
    {
        let words = &self.table.shared;
        words.load::<Looks<G>>(seat, key as usize)
    }

    /// The writer reads a content word of the slot that its key names, whose first one stands at
    /// `begin`.
    pub fn read_on(&self, seat: &mut Seat, begin: u64, index: u64) -> u64
        requires { IsReading self.now begin index seat.old }
        ensures { GoesOn self.now result seat.old seat.new }
    {
        let words = &self.table.shared;
        let place = begin + index;
        words.load::<Goes>(seat, place as usize)
    }

    /// The writer polls a retired slot: its departures.
    pub fn poll(&self, seat: &mut Seat, slot: u32) -> u64
        requires { IsPolling self.now slot seat.old }
        ensures { GoesOn self.now result seat.old seat.new }
    {
        let words = &self.table.shared;
        let place = self.layout().departures(slot);
        words.load::<Goes>(seat, place as usize)
    }

    /// The writer polls a retired slot between two calls: its departures. Where they are the arrivals,
    /// nobody holds the slot, and its set is reaped.
    pub fn probe(&self, seat: &mut Seat, entry: Retired) -> u64
        requires { ProbesAt self.now entry seat.old }
        ensures own { seat.new.table_id ≡ seat.old.table_id }
        ensures tells { ProbesTo self.now.shape entry result (view_of seat.old) (view_of seat.new) }
    {
        let words = &self.table.shared;
        let place = self.layout().departures(entry.slot);
        words.load::<Probes>(seat, place as usize)
    }

    /// The writer loads a reader's own word, and hears which retired slots it doesn't say: the word.
    /// `own` is the reader's number less one.
    pub fn scan(&self, seat: &mut Seat, own: u32) -> u64
        requires { ScansAt self.now own seat.old }
        ensures own { seat.new.table_id ≡ seat.old.table_id }
        ensures hears { HearsWord own result (view_of seat.old) (view_of seat.new) }
    {
        let words = &self.table.shared;
        let place = self.own_word(own);
        words.load::<Scans>(seat, place as usize)
    }

    /// As `scan`, by a search, which notes the reader where its word keeps a slot from being heard.
    pub fn scan_on(&self, seat: &mut Seat, own: u32) -> u64
        requires search { IsSearching self.now seat.old }
        requires within { own < self.now.announcers }
        ensures own { seat.new.table_id ≡ seat.old.table_id }
        ensures hears { SearchesOn own result (view_of seat.old) (view_of seat.new) }
    {
        let words = &self.table.shared;
        let place = self.own_word(own);
        words.load::<Searches>(seat, place as usize)
    }

    /// A search polls a retired slot of which all readers that have a word were heard: its departures.
    /// Where they are the arrivals nobody holds the slot, and it is taken.
    pub fn try_slot(&self, seat: &mut Seat, entry: Retired) -> u64
        requires { TriesAt self.now entry seat.old }
        ensures own { seat.new.table_id ≡ seat.old.table_id }
        ensures tries { TriesTo entry result (view_of seat.old) (view_of seat.new) }
    {
        let words = &self.table.shared;
        let place = self.layout().departures(entry.slot);
        words.load::<Tries>(seat, place as usize)
    }

    /// A search that found no slot ends, and its call with it.
    pub fn give_up(&self, seat: &mut Seat)
        requires { IsSearching self.now seat.old }
        ensures own { seat.new.table_id ≡ seat.old.table_id }
        ensures ends { Ends (view_of seat.old) (view_of seat.new) }
    {
        let words = &self.table.shared;
        words.load::<GivesUp>(seat, 0);
    }

    /// The writer reads a content word of a slot into which its call has put none: a word of the set
    /// that was put there last.
    pub fn recall(&self, seat: &mut Seat, slot: u32, index: u64) -> u64
        requires recalls { RecallsAt self.now slot seat.old }
        requires index { index < slot_room self.now.shape }
        ensures word { IsWordOf self.now.shape.rows (set_in (view_of seat.old).marks slot) index result }
        ensures own { seat.new.table_id ≡ seat.old.table_id }
        ensures step { view_of seat.new ≡ has_noted (view_of seat.old) }
    {
        let words = &self.table.shared;
        let place = self.content(slot) + index;
        words.load::<Recalls>(seat, place as usize)
    }

    /// The writer puts a content word into the slot that it took, whose first one stands at
    /// `begin`.
    pub fn put(&self, seat: &mut Seat, begin: u64, index: u64, word: u64)
        requires { IsPutting self.now begin index word seat.old }
        ensures { (desk : Desk) → (view_of seat.old).role ≡ Writer desk → PutsTo self.now desk seat.old seat.new }
    {
        let words = &self.table.shared;
        let place = begin + index;
        words.store::<Puts>(seat, place as usize, word);
    }

    /// The writer names the slot that it filled at the key: the word as it was.
    pub fn publish(&self, seat: &mut Seat, key: u32, slot: u32, departed: u64) -> u64
        requires writer { IsPublishing self.now key slot departed seat.old }
        requires key { key < self.now.shape.keys }
        ensures { GoesOn self.now result seat.old seat.new }
    {
        let words = &self.table.shared;
        let word = naming(slot, departed);
        words.swap::<Goes>(seat, key as usize, word)
    }

    /// The writer makes the key a hole, which keeps its ticket number: the word as it was.
    pub fn unpublish(&self, seat: &mut Seat, key: u32, number: u64) -> u64
        requires { IsLeaving self.now key number seat.old }
        ensures { GoesOn self.now result seat.old seat.new }
    {
        let words = &self.table.shared;
        let hole = hole_word(number, false);
        words.swap::<Goes>(seat, key as usize, hole)
    }

    /// The writer takes the key's request back: the key is a hole with the next ticket number.
    pub fn withdraw(&self, seat: &mut Seat, key: u32, next: u64)
        requires { IsWithdrawing self.now key next seat.old }
        ensures { (found : ℕ) × GoesOn self.now found seat.old seat.new }
    {
        let words = &self.table.shared;
        let hole = hole_word(next, false);
        words.swap::<Goes>(seat, key as usize, hole);
    }

    /// A note of what the token has seen, in 1 step. Else the token stays as it is.
    pub fn note(&self, seat: &mut Seat) -> Note
        requires { seat.old.table_id ≡ self.now.id }
        ensures maker { (seat.new.table_id ≡ seat.old.table_id) × (seat.new.me ≡ (has_noted (view_of seat.old), carried_by seat.old)) }
        ensures note { (result.table_id ≡ seat.old.table_id) × (result.me ≡ (note_of (view_of seat.old), [])) }
    {
        let words = &self.table.shared;
        Note {
            seat: words.split_seat::<Notes>(seat),
        }
    }

    /// The token learns, in 1 step, the history so far, which begins with all that it had seen and
    /// with all that the note's maker had seen.
    pub fn hear_note(&self, seat: &mut Seat, note: Note)
        requires own { ((token seat.old).table ≡ self.now) × (note.table_id ≡ self.now.id) }
        requires note { IsNote note }
        requires caller { IsCaller (view_of seat.old).role }
        ensures hears { HearsNote 1 (known_to (token note)) (token seat.old) (token seat.new) }
        ensures readers { HearsOf (view_of note) (view_of seat.old) (view_of seat.new) }
        ensures numbers { (desk : Desk) → (view_of seat.old).role ≡ Writer desk → AreNumbers self.now.shape (map_seen (token seat.new)) desk.numbers }
        ensures role { (seat.new.table_id ≡ seat.old.table_id) × ((view_of seat.new).role ≡ (view_of seat.old).role) }
        ensures says { (view_of seat.new).says ≡ (view_of seat.old).says }
    {
        let words = &self.table.shared;
        let Note { seat: mut told } = note;
        take_in::<(), View, Plan, Rule, Hears>(words, seat, &mut told);
    }

    /// The token takes a note in, in 1 step.
    pub fn take_note(&self, seat: &mut Seat, note: Note)
        requires own { (seat.old.table_id ≡ self.now.id) × (note.table_id ≡ self.now.id) }
        requires note { IsNote note }
        ensures own { seat.new.table_id ≡ seat.old.table_id }
        ensures took { view_of seat.new ≡ with_note (view_of seat.old) (view_of note) }
    {
        let words = &self.table.shared;
        let Note { seat: told } = note;
        words.join_seat::<Notes>(seat, told);
    }

    /// A note that says what the one said which the token took in last, in 1 step. Else the token
    /// stays as it is.
    pub fn retell(&self, seat: &mut Seat) -> Note
        requires { seat.old.table_id ≡ self.now.id }
        ensures maker { (seat.new.table_id ≡ seat.old.table_id) × (seat.new.me ≡ (has_noted (view_of seat.old), carried_by seat.old)) }
        ensures note { (result.table_id ≡ seat.old.table_id) × (result.me ≡ (retold (view_of seat.old), [])) }
    {
        let words = &self.table.shared;
        Note {
            seat: words.split_seat::<Retells>(seat),
        }
    }

    /// The token learns the history so far, by the word of a key, which shows the key's state.
    pub fn learn_at(&self, seat: &mut Seat, key: u32) -> u64
        requires own { (token seat.old).table ≡ self.now }
        requires caller { IsCaller (view_of seat.old).role }
        requires key { key < self.now.shape.keys }
        ensures learns { Learns 1 (token seat.old) (token seat.new) }
        ensures role { (seat.new.table_id ≡ seat.old.table_id) × ((view_of seat.new).role ≡ (view_of seat.old).role) }
        ensures says { (view_of seat.new).says ≡ (view_of seat.old).says }
        ensures state { kind_shown result ≡ kind_of (state_of (map_seen (token seat.new)) key) }
        ensures numbers { (desk : Desk) → (view_of seat.old).role ≡ Writer desk → AreNumbers self.now.shape (map_seen (token seat.new)) desk.numbers }
    {
        let words = &self.table.shared;
        words.load::<Sees>(seat, key as usize)
    }

    /// The token learns the history so far. Of the writer's lists it tells that they are those of that
    /// history.
    pub fn learn(&self, seat: &mut Seat)
        requires own { (token seat.old).table ≡ self.now }
        requires caller { IsCaller (view_of seat.old).role }
        ensures learns { Learns 1 (token seat.old) (token seat.new) }
        ensures role { (seat.new.table_id ≡ seat.old.table_id) × ((view_of seat.new).role ≡ (view_of seat.old).role) }
        ensures says { (view_of seat.new).says ≡ (view_of seat.old).says }
        ensures lists { (desk : Desk) → (view_of seat.old).role ≡ Writer desk → Lists desk (view_of seat.old).marks self.now.shape (view_of seat.new).seen }
        ensures numbers { (desk : Desk) → (view_of seat.old).role ≡ Writer desk → AreNumbers self.now.shape (map_seen (token seat.new)) desk.numbers }
    {
        let words = &self.table.shared;
        words.load::<Sees>(seat, 0);
    }

    /// The sizes of the map by which places of words are reckoned: some keys, and 1 to 255 rows a key.
    pub fn layout(&self) -> Layout
        ensures value { result ≡ layout self.now.shape }
        ensures keys { 0 < self.now.shape.keys }
        ensures rows { 0 < self.now.shape.rows }
        ensures few { self.now.shape.rows ≤ MAX_ROWS }
    {
        layout_of(self.plan.shape)
    }
}

fn layout_of(shape: Shape) -> Layout
    ensures { result ≡ layout shape }
{
    Layout {
        keys: shape.keys,
        slots: shape.slots,
        rows: shape.rows,
    }
}

// The words at opening. A first count is a word, which a shape as such doesn't say.
fn words_from(alloc: Global, plan: Plan) -> Result<Vec<u64>, AllocError>
    requires sizes { IsShape plan.shape }
    ensures words { IfOk result (λ words. words.items ≡ words_at_opening plan.shape ++ replicate (own_words plan.announcers) 0) }
    ensures count { IfOk result (λ words. plan.shape.first_count < 2 ^ 64) }
{
    let Shape {
        first_count,
        first_number,
        ..
    } = plan.shape;
    let behind = 16 * u64::from(plan.announcers) + 256;
    opening_words(
        alloc,
        layout_of(plan.shape),
        first_count,
        first_number,
        behind,
    )
}
