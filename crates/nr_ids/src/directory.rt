//! The table of names, hints, marks and turns. It is private to this module, whose functions make one step each.
ghost use Rattle.std.specs.Prelude.{◌≡◌, ◌≢◌, ◌<◌, ◌%◌, true, false, IfOk, [], ◌∷◌};
ghost use Rattle.nr_ids.specs.Events.{AreMarked, KeepsHints, MayName, cleared, hinted, hints_of, last_turn, loaded, looked, marked, marks_of, name_of, named, touched, turn_of, unnamed};
ghost use Rattle.nr_ids.specs.Groups.{IsPlan, group_of, places, ways};
ghost use Rattle.nr_ids.specs.Marks.{LoadsMarks, TurnsMarks};
ghost use Rattle.nr_ids.specs.Rule.{BeginsWith, counted, hints_place, marks_place, next_reader, note_of, opener, retold, total, turn_place, with_note, with_reader};
ghost use Rattle.nr_ids.specs.Scans.{Scanned};
ghost use Rattle.nr_ids.specs.Tokens.{Grows, IsNote, Sits, WinsClaim, carried_by, token, view_of};

use crate::plan::{Plan, WAYS};
use crate::rule::{
    Claims, Clears, Loads, LooksAtHints, LooksAtName, LooksAtTurn, MarksWay, Names, Notes, Retells,
    Rule, Seats, TurnsOver, Unnames, WritesHints,
};
use crate::view::View;
use atomic_table::Table;
use std::alloc::{AllocError, Global};
use std::marker::Model;

/// What a token makes its steps with.
pub(crate) type Seat = atomic_table::Seat<u64, View>;

/// A directory: which way of a map, eight of them a group, has which id. Only a token of it can make a
/// step.
#[derive(Drop)]
pub struct Directory {
    table: Table<u64, View, Plan, Rule, Global>,
    plan: Plan,
}

impl Model for Directory {
    ghost use Rattle.std.specs.Prelude.{◌≡◌};
    ghost use Rattle.nr_ids.specs.Groups.{IsPlan};
    ghost use Rattle.nr_ids.specs.Rule.{total};
    ghost use Rattle.nr_ids.specs.Tokens.{Opened};

    ghost Value = { Opened };

    ghost view = { λ directory. record { id = directory.table.shared.table_id; plan = directory.plan } };

    ghost invariant = { λ directory. (directory.table.shared.key ≡ directory.plan) × (directory.table.shared.table_id.words ≡ total directory.plan) × IsPlan directory.plan };
}

impl Directory {
    /// The table with the clerk's token. No way has a name.
    pub(crate) fn lay(alloc: Global, plan: Plan) -> Result<(Directory, Seat), AllocError>
        requires { IsPlan plan }
        ensures directory { IfOk result (λ (directory, _). directory.plan ≡ plan) }
        ensures seat { IfOk result (λ (directory, seat). (seat.table_id ≡ directory.id) × (seat.me ≡ (opener plan, []))) }
    {
        let words = vec![in alloc; 0; 11 * plan.groups as usize]?;
        let (table, seat) = Table::of_words(alloc, &words, &plan)?;
        Ok((Directory { table, plan }, seat))
    }

    /// What the directory was opened with.
    pub fn plan(&self) -> &Plan
        ensures value { result.now ≡ self.now.plan }
        ensures sizes { IsPlan result.now }
    {
        &self.plan
    }

    /// The clerk makes the next reader.
    pub(crate) fn seat(&self, seat: &mut Seat) -> Seat
        requires clerk { Sits self.now seat.old }
        requires number { (token seat.old).number ≡ 0 }
        ensures clerk { (seat.new.table_id ≡ seat.old.table_id) × (seat.new.me ≡ (with_reader (view_of seat.old), carried_by seat.old)) }
        ensures reader { (result.table_id ≡ seat.old.table_id) × (result.me ≡ (next_reader (view_of seat.old), [])) }
    {
        let words = &self.table.shared;
        words.split_seat::<Seats>(seat)
    }

    /// A look at a way's name.
    pub(crate) fn look(&self, seat: &mut Seat, way: u32) -> u64
        requires caller { Sits self.now seat.old }
        requires way { way < ways self.now.plan }
        ensures caller { Sits self.now seat.new }
        ensures grows { Grows (looked (token seat.old).number ∷ []) (token seat.old) (token seat.new) }
        ensures value { result ≡ name_of (token seat.new).seen way }
    {
        let words = &self.table.shared;
        words.load::<LooksAtName>(seat, way as usize)
    }

    /// A look at a group's hints.
    #[inline(always)]
    pub(crate) fn look_at_hints(&self, seat: &mut Seat, group: u32) -> u64
        requires caller { Sits self.now seat.old }
        requires group { group < self.now.plan.groups }
        ensures caller { Sits self.now seat.new }
        ensures grows { Grows (looked (token seat.old).number ∷ []) (token seat.old) (token seat.new) }
        ensures value { result ≡ hints_of (token seat.new).seen group }
    {
        let words = &self.table.shared;
        let place = self.hints_place(group);
        words.load::<LooksAtHints>(seat, place)
    }

    /// A look at a group's turn.
    pub(crate) fn look_at_turn(&self, seat: &mut Seat, group: u32) -> u64
        requires caller { Sits self.now seat.old }
        requires group { group < self.now.plan.groups }
        ensures caller { Sits self.now seat.new }
        ensures grows { Grows (looked (token seat.old).number ∷ []) (token seat.old) (token seat.new) }
        ensures value { result ≡ turn_of self.now.plan (token seat.new).seen group }
        ensures early { result % 2 ≡ 1 → result < last_turn }
    {
        let words = &self.table.shared;
        let place = self.turn_place(group);
        words.load::<LooksAtTurn>(seat, place)
    }

    /// Claims the group of an id, which a scan after a look at the group's turn didn't find: whether the
    /// turn was still the same. Then no way has the id at that moment.
    pub(crate) fn claim(&self, seat: &mut Seat, id: u64, was: u64) -> bool
        requires caller { Sits self.now seat.old }
        requires id { 0 < id }
        requires closed { was % 2 ≡ 0 }
        requires early { was < last_turn }
        requires scanned { Scanned self.now.plan (token seat.old).seen id was places }
        ensures caller { Sits self.now seat.new }
        ensures won { result ≡ true → WinsClaim id [] (token seat.old) (token seat.new) }
        ensures lost { result ≡ false → Grows (looked (token seat.old).number ∷ []) (token seat.old) (token seat.new) × (turn_of self.now.plan (token seat.new).seen (group_of self.now.plan id) ≢ was) }
    {
        let words = &self.table.shared;
        let place = self.turn_place(self.plan.group_of(id));
        let found = words.compare_exchange_with::<Claims>(seat, place, was, was + 1, &id);
        found == was
    }

    /// The clerk writes a group's hints, of which those of ways that have a name stay.
    pub(crate) fn write_hints(&self, seat: &mut Seat, group: u32, hints: u64)
        requires clerk { Sits self.now seat.old }
        requires number { (token seat.old).number ≡ 0 }
        requires group { group < self.now.plan.groups }
        requires keeps { KeepsHints (token seat.old).seen group hints }
        ensures clerk { Sits self.now seat.new }
        ensures grows { Grows (touched (token seat.old).number (hinted group hints) ∷ []) (token seat.old) (token seat.new) }
    {
        let words = &self.table.shared;
        let place = self.hints_place(group);
        words.store::<WritesHints>(seat, place, hints);
    }

    /// The clerk names a way of the id's that has its hint and no name, where a claim of the id's group is
    /// open and no way has the id.
    pub(crate) fn name(&self, seat: &mut Seat, way: u32, id: u64)
        requires clerk { Sits self.now seat.old }
        requires number { (token seat.old).number ≡ 0 }
        requires may { MayName self.now.plan (token seat.old).seen way id }
        ensures clerk { Sits self.now seat.new }
        ensures grows { Grows (named way id ∷ []) (token seat.old) (token seat.new) }
    {
        let words = &self.table.shared;
        words.store::<Names>(seat, way as usize, id);
    }

    /// The clerk takes a way's name.
    pub(crate) fn unname_way(&self, seat: &mut Seat, way: u32)
        requires clerk { Sits self.now seat.old }
        requires number { (token seat.old).number ≡ 0 }
        requires way { way < ways self.now.plan }
        ensures clerk { Sits self.now seat.new }
        ensures grows { Grows (unnamed way ∷ []) (token seat.old) (token seat.new) }
    {
        let words = &self.table.shared;
        words.store::<Unnames>(seat, way as usize, 0);
    }

    /// The clerk closes the claim of a group, whose turn is `was`.
    pub(crate) fn close(&self, seat: &mut Seat, group: u32, was: u64)
        requires clerk { Sits self.now seat.old }
        requires number { (token seat.old).number ≡ 0 }
        requires group { group < self.now.plan.groups }
        requires was { turn_of self.now.plan (token seat.old).seen group ≡ was }
        requires open_claim { was % 2 ≡ 1 }
        requires early { was < last_turn }
        ensures clerk { Sits self.now seat.new }
        ensures grows { Grows (cleared group ∷ []) (token seat.old) (token seat.new) }
    {
        let words = &self.table.shared;
        let place = self.turn_place(group);
        words.store::<Clears>(seat, place, was + 1);
    }

    /// A load of a way's name ahead of a look at it.
    pub(crate) fn load_name(&self, seat: &mut Seat, way: u32)
        requires caller { Sits self.now seat.old }
        requires way { way < ways self.now.plan }
        ensures caller { Sits self.now seat.new }
        ensures grows { Grows (touched (token seat.old).number (loaded way) ∷ []) (token seat.old) (token seat.new) }
    {
        let words = &self.table.shared;
        words.load::<Loads>(seat, way as usize);
    }

    /// A load of a group's hints ahead of a look at them.
    pub(crate) fn load_hints(&self, seat: &mut Seat, group: u32)
        requires caller { Sits self.now seat.old }
        requires group { group < self.now.plan.groups }
        ensures caller { Sits self.now seat.new }
        ensures grows { Grows (touched (token seat.old).number (loaded (hints_place self.now.plan group)) ∷ []) (token seat.old) (token seat.new) }
    {
        let words = &self.table.shared;
        let place = self.hints_place(group);
        words.load::<Loads>(seat, place);
    }

    /// The marks of a group.
    pub(crate) fn marks(&self, seat: &mut Seat, group: u32) -> u64
        requires caller { Sits self.now seat.old }
        requires group { group < self.now.plan.groups }
        ensures caller { Sits self.now seat.new }
        ensures loads { LoadsMarks group (token seat.old) (token seat.new) }
        ensures value { result ≡ marks_of (token seat.new).seen group }
    {
        let words = &self.table.shared;
        let place = self.marks_place(group);
        words.load::<Loads>(seat, place)
    }

    /// Sets a way's use bit.
    pub(crate) fn set_mark(&self, seat: &mut Seat, way: u32)
        requires caller { Sits self.now seat.old }
        requires way { way < ways self.now.plan }
        ensures caller { Sits self.now seat.new }
        ensures grows { Grows (touched (token seat.old).number (marked way) ∷ []) (token seat.old) (token seat.new) }
    {
        let words = &self.table.shared;
        let place = self.marks_place(way / WAYS);
        words.fetch_or::<MarksWay>(seat, place, 1 << (way % WAYS));
    }

    /// The clerk turns bits of a group's marks over, which loses none that a reader sets meanwhile. The use
    /// bits among them are set.
    pub(crate) fn turn_marks(&self, seat: &mut Seat, group: u32, bits: u64)
        requires clerk { Sits self.now seat.old }
        requires number { (token seat.old).number ≡ 0 }
        requires group { group < self.now.plan.groups }
        requires set { AreMarked (token seat.old).seen group bits }
        ensures clerk { Sits self.now seat.new }
        ensures turns { TurnsMarks group bits (token seat.old) (token seat.new) }
    {
        let words = &self.table.shared;
        let place = self.marks_place(group);
        words.fetch_xor::<TurnsOver>(seat, place, bits);
    }

    /// A look at word 0, by which the token knows all that a note told it which it took in last.
    pub(crate) fn learn(&self, seat: &mut Seat)
        requires caller { Sits self.now seat.old }
        ensures caller { Sits self.now seat.new }
        ensures grows { Grows (looked (token seat.old).number ∷ []) (token seat.old) (token seat.new) }
        ensures heard { BeginsWith (token seat.new).seen (view_of seat.old).told }
    {
        let words = &self.table.shared;
        words.load::<LooksAtName>(seat, 0);
    }

    /// A note of what the token has seen. Else the token stays as it is, but for the step.
    pub(crate) fn note_seat(&self, seat: &mut Seat) -> Seat
        requires { seat.old.table_id ≡ self.now.id }
        ensures maker { (seat.new.table_id ≡ seat.old.table_id) × (seat.new.me ≡ (counted (view_of seat.old), carried_by seat.old)) }
        ensures note { (result.table_id ≡ seat.old.table_id) × (result.me ≡ (note_of (view_of seat.old), [])) }
    {
        let words = &self.table.shared;
        words.split_seat::<Notes>(seat)
    }

    /// The token takes a note in, of which its next look tells.
    pub(crate) fn take_note(&self, seat: &mut Seat, note: Seat)
        requires own { (seat.old.table_id ≡ self.now.id) × (note.table_id ≡ self.now.id) }
        requires note { IsNote note }
        ensures own { seat.new.table_id ≡ seat.old.table_id }
        ensures took { seat.new.me ≡ (with_note (view_of seat.old) (view_of note), carried_by seat.old) }
    {
        let words = &self.table.shared;
        words.join_seat::<Notes>(seat, note);
    }

    /// A note that says what the note said which the token took in last. Else the token stays as it is,
    /// but for the step.
    pub(crate) fn retell(&self, seat: &mut Seat) -> Seat
        requires { seat.old.table_id ≡ self.now.id }
        ensures maker { (seat.new.table_id ≡ seat.old.table_id) × (seat.new.me ≡ (counted (view_of seat.old), carried_by seat.old)) }
        ensures note { (result.table_id ≡ seat.old.table_id) × (result.me ≡ (retold (view_of seat.old), [])) }
    {
        let words = &self.table.shared;
        words.split_seat::<Retells>(seat)
    }

    fn turn_place(&self, group: u32) -> usize
        requires { group < self.now.plan.groups }
        ensures value { result ≡ turn_place self.now.plan group }
        ensures inside { result < total self.now.plan }
    {
        10 * self.plan.groups as usize + group as usize
    }

    fn marks_place(&self, group: u32) -> usize
        requires { group < self.now.plan.groups }
        ensures value { result ≡ marks_place self.now.plan group }
        ensures inside { result < total self.now.plan }
    {
        8 * self.plan.groups as usize + 2 * group as usize
    }

    fn hints_place(&self, group: u32) -> usize
        requires { group < self.now.plan.groups }
        ensures value { result ≡ hints_place self.now.plan group }
        ensures inside { result < total self.now.plan }
    {
        8 * self.plan.groups as usize + 2 * group as usize + 1
    }
}
