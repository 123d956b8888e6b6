//! A client by id, which gets rows, and claims and waits for ids that are absent.
ghost use Rattle.std.specs.Prelude.{◌≡◌, ◌<◌, IfErr, None, Ok, slice_index};
ghost use Rattle.nr_ids.specs.Groups.{group_of};
ghost use Rattle.nr_idmap.specs.IdNotes.{HearsIdNote, known_to_reader, note_table_of, with_steps_of_note};
ghost use Rattle.nr_idmap.specs.Keepers.{id_table_of};
ghost use Rattle.nr_serve.specs.Counts.{IsNew, OnlyLooks, failed_at};
ghost use Rattle.nr_idserve.specs.IdApplied.{HearsIdApplied};
ghost use Rattle.nr_idserve.specs.IdGets.{GetsId, GetsIdInTime};
ghost use Rattle.nr_idserve.specs.IdHands.{IsReadyFor, with_id_reader};
ghost use Rattle.nr_serve.specs.Rings.{RingsFor};
ghost use Rattle.nr_idserve.specs.IdWaits.{GetsIdSleeping};

use crate::answers::GotId;
use crate::applied::{IdApplied, IdMeasure};
use crate::hands::IdHands;
use crate::service::IdService;
use crate::tries::get_by_tries;
use nr_idmap::{Claim, IdNote, IdReader};
use nr_model::RowRoom;
use nr_serve::{Limit, NoLimit, TooLate, Watched};
use nr_trigger::Poster;
use std::marker::Model;
use std::snapshot::Snapshot;
use std::sync::Wait;
use std::time::{Clock, Instant};

/// A reader of a map over ids and a poster of its queue, in one hand. It can't be dropped, since it may
/// keep a claim: it must be ended.
pub struct IdClient<'a> {
    service: &'a IdService,
    lobby: Watched<'a>,
    hands: IdHands,
    opened: Snapshot<IdHands>,
}

impl<'a> Model for IdClient<'a> {
    ghost use Rattle.nr_idserve.specs.IdHands.{IdClientSeen, IsReadyFor};

    ghost Value = { IdClientSeen };

    ghost view = { λ client. record {
      map = client.service.now.map;
      queue = client.service.now.queue;
      opened = client.opened.value;
      hands = client.hands;
      guest = client.lobby;
    } };

    ghost invariant = { λ client. IsReadyFor client.service.now.map client.service.now.queue client.hands };
}

impl<'a> IdClient<'a> {
    /// A client of a service whose queue takes a key.
    pub fn open(service: &'a IdService, reader: IdReader, poster: Poster) -> IdClient<'a>
        requires map { id_table_of reader ≡ service.now.map }
        requires queue { poster.queue ≡ service.now.queue.id }
        requires keys { 0 < poster.keys }
        ensures places { (result.map ≡ service.now.map) × (result.queue ≡ service.now.queue) }
        ensures hands { result.hands ≡ record { reader = reader; poster = poster; kept = None } }
        ensures opened { result.opened ≡ result.hands }
        ensures guest { (result.guest.lobby ≡ service.now.lobby) × IsNew result.guest }
    {
        let hands = IdHands {
            reader,
            poster,
            kept: None,
        };
        let opened = Snapshot::of(&hands);
        IdClient {
            service,
            lobby: Watched::of(service.lobby()),
            hands,
            opened,
        }
    }

    /// Gets the rows of an id, in at most that many tries. A try posts the claim that is kept, if any, and
    /// finds the id. If it has rows, the caller's room has them then, and the get ends with `Rows`. If it
    /// is absent, it is requested, unless a claim is still kept, and the claim that is granted is posted,
    /// or kept where the queue is full. Before the next try the client sleeps in the lobby until the id's
    /// group was raised since, unless it keeps a claim, or the id had a way again, or its group can't be
    /// claimed. After the last try it ends with `GaveUp`. The room is unchanged unless it ends with `Rows`.
    /// The client's guest rings the bell for each claim that is posted, and raises nothing else.
    pub fn get<R: RowRoom, W: Wait>(&mut self, rt: &W, id: u64, tries: u32, rows: &mut R) -> GotId
        requires { 0 < id }
        ensures gets { GetsId R.shows (record { capacity = self.old.queue.capacity; id = id; tries = tries }) self.old.hands rows.old self.new.hands rows.new result }
        ensures waits { GetsIdSleeping R.shows (record { capacity = self.old.queue.capacity; id = id; tries = tries }) (group_of self.old.map.directory.plan id) self.old.hands rows.old self.old.guest self.new.hands rows.new self.new.guest (Ok result) }
        ensures at_once { tries ≡ 0 → self.new.hands ≡ self.old.hands }
        ensures rings { RingsFor self.old.hands.poster self.old.guest self.new.hands.poster self.new.guest }
        ensures places { (self.new.map ≡ self.old.map) × (self.new.queue ≡ self.old.queue) }
        ensures opened { self.new.opened ≡ self.old.opened }
    {
        match self.get_within(rt, id, tries, rows, &NoLimit) {
            Ok(got) => got,
            Err(_) => unreachable!(),
        }
    }

    /// As `get`, but a sleep lasts until that time at most. One that timed out ends the get with
    /// `TooLate`, after fewer tries, which found no rows; the room is unchanged then. Nothing else answers
    /// `TooLate`, and no time is promised. A clock that can't be read ends a sleep too.
    pub fn get_until<R: RowRoom, W: Wait + Clock>(
        &mut self,
        rt: &W,
        id: u64,
        tries: u32,
        rows: &mut R,
        until: Instant,
    ) -> Result<GotId, TooLate>
        requires { 0 < id }
        ensures gets { GetsIdInTime R.shows (record { capacity = self.old.queue.capacity; id = id; tries = tries }) self.old.hands rows.old self.new.hands rows.new result }
        ensures waits { GetsIdSleeping R.shows (record { capacity = self.old.queue.capacity; id = id; tries = tries }) (group_of self.old.map.directory.plan id) self.old.hands rows.old self.old.guest self.new.hands rows.new self.new.guest result }
        ensures late { IfErr result (λ late. late.until ≡ until) }
        ensures at_once { tries ≡ 0 → self.new.hands ≡ self.old.hands }
        ensures rings { RingsFor self.old.hands.poster self.old.guest self.new.hands.poster self.new.guest }
        ensures places { (self.new.map ≡ self.old.map) × (self.new.queue ≡ self.old.queue) }
        ensures opened { self.new.opened ≡ self.old.opened }
    {
        self.get_within(rt, id, tries, rows, &until)
    }

    // A get whose sleeps have that limit.
    fn get_within<R: RowRoom, L: Limit<W>, W: Wait>(
        &mut self,
        rt: &W,
        id: u64,
        tries: u32,
        rows: &mut R,
        limit: &L,
    ) -> Result<GotId, TooLate>
        requires { 0 < id }
        ensures gets { GetsIdInTime R.shows (record { capacity = self.old.queue.capacity; id = id; tries = tries }) self.old.hands rows.old self.new.hands rows.new result }
        ensures waits { GetsIdSleeping R.shows (record { capacity = self.old.queue.capacity; id = id; tries = tries }) (group_of self.old.map.directory.plan id) self.old.hands rows.old self.old.guest self.new.hands rows.new self.new.guest result }
        ensures late { IfErr result (λ late. L.lapses limit.now late) }
        ensures at_once { tries ≡ 0 → self.new.hands ≡ self.old.hands }
        ensures rings { RingsFor self.old.hands.poster self.old.guest self.new.hands.poster self.new.guest }
        ensures places { (self.new.map ≡ self.old.map) × (self.new.queue ≡ self.old.queue) }
        ensures opened { self.new.opened ≡ self.old.opened }
    {
        get_by_tries(
            rt,
            self.service,
            &mut self.lobby,
            limit,
            id,
            tries,
            &mut self.hands,
            rows,
        )
    }

    /// A note of what the client has seen, in a step on each of its map's tables. Else the client stays as
    /// it is.
    pub fn note(&mut self) -> IdNote
        ensures of { note_table_of result ≡ self.old.map }
        ensures note { result ≡ known_to_reader self.old.hands.reader }
        ensures rest { self.new ≡ record self.old { hands = with_id_reader self.old.hands (with_steps_of_note self.old.hands.reader) } }
    {
        self.service.map().note(&mut self.hands.reader)
    }

    /// The client learns all that the note's maker had seen.
    pub fn hear(&mut self, note: IdNote)
        requires { note_table_of note ≡ self.old.map }
        ensures hears { HearsIdNote note self.old.hands.reader self.new.hands.reader }
        ensures rest { self.new ≡ record self.old { hands = with_id_reader self.old.hands self.new.hands.reader } }
    {
        self.service.map().hear(&mut self.hands.reader, note);
    }

    /// Sleeps until the dataflow told that it has applied so much at least, hears the note that tells it, in
    /// 4 steps of the map and 5 of the directory, and gives the amount that was told. A get after that finds
    /// what was applied then, or later rows (`laws::gets_what_was_applied`). None, and no step, where the
    /// lobby was closed and nothing had told it.
    pub fn wait_applied<M: IdMeasure, R: Wait>(
        &mut self,
        rt: &R,
        applied: &IdApplied<'_, M>,
        least: u64,
    ) -> Option<u64>
        requires lobby { applied.now ≡ self.old.guest.lobby }
        requires notes { (amount : _) (note : _) → M.reached amount note → note_table_of note ≡ self.old.map }
        ensures hears { HearsIdApplied M.reached least self.new.guest self.old.hands.reader self.new.hands.reader result }
        ensures looks { OnlyLooks self.old.guest self.new.guest }
        ensures rest { self.new ≡ record self.old { hands = with_id_reader self.old.hands self.new.hands.reader; guest = self.new.guest } }
    {
        applied.wait(
            rt,
            self.service.map(),
            &mut self.lobby,
            &mut self.hands.reader,
            least,
        )
    }

    /// How often the rows of an id of this one's group couldn't be had, up to 2^64 - 1. A get that gave up
    /// tells by it, once it was read before too, that a source failed.
    pub fn failures_for(&mut self, id: u64) -> u64
        ensures looks { OnlyLooks self.old.guest self.new.guest }
        ensures found { slice_index self.new.guest.seen (failed_at (group_of self.old.map.directory.plan id)) ≡ result }
        ensures rest { self.new ≡ record self.old { guest = self.new.guest } }
    {
        let group = self.service.map().group_of(id);
        self.lobby.failures_for(group)
    }

    /// Hands out what the client was opened with, and the claim that it keeps.
    pub fn end(self) -> (IdReader, Poster, Option<Claim>)
        ensures reader { let (reader, _, _) = result in reader ≡ self.entry.hands.reader }
        ensures poster { let (_, poster, _) = result in poster ≡ self.entry.hands.poster }
        ensures kept { let (_, _, kept) = result in kept ≡ self.entry.hands.kept }
        ensures own { IsReadyFor self.entry.map self.entry.queue self.entry.hands }
    {
        let IdClient {
            service: _,
            lobby: _,
            hands: IdHands {
                reader,
                poster,
                kept,
            },
            opened: _,
        } = self;
        (reader, poster, kept)
    }
}
