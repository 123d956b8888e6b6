//! A client, which gets rows, and asks and waits for those that are missing.
ghost use Rattle.std.specs.Prelude.{◌≡◌, ◌<◌, ◌≤◌, ◌+◌, IfErr, IfOk, length, None, Ok, slice_index};
ghost use Rattle.nr_board.specs.Callers.{KnowsOwn};
ghost use Rattle.nr_board.specs.Meetings.{HearsNote, known_to, with_step};
ghost use Rattle.nr_serve.specs.Clients.{since};
ghost use Rattle.nr_serve.specs.Counts.{IsNew, OnlyLooks, failed_at};
ghost use Rattle.nr_serve.specs.Gets.{Gets, GetsInTime};
ghost use Rattle.nr_serve.specs.Hands.{capped, with_idle_reader};
ghost use Rattle.nr_serve.specs.Rings.{Rings};
ghost use Rattle.nr_serve.specs.Tickets.{sent};
ghost use Rattle.nr_serve.specs.Waits.{GetsSleeping};

use crate::answers::Got;
use crate::applied::{Applied, Measure};
use crate::gate::Gate;
use crate::hands::Hands;
use crate::lobby::Lobby;
use crate::service::Service;
use crate::shared::Shared;
use crate::sleepers::{Limit, NoLimit, TooLate};
use crate::tries::get_by_tries;
use crate::watched::Watched;
use nr_map::{Note, Reader, ReaderMap, Ticket};
use nr_model::RowSet;
use nr_trigger::{Poster, Triggers};
use std::marker::Model;
use std::snapshot::Snapshot;
use std::sync::Wait;
use std::time::{Clock, Instant};

/// A reader of a map and a poster of its queue, in one hand. It can't be dropped, since it may keep
/// a ticket: it must be ended.
pub struct Client<'a, G> {
    shared: Shared<'a, G>,
    lobby: Watched<'a>,
    hands: Hands,
    gets: u64,
    opened: Snapshot<Hands>,
}

impl<'a, G> Model for Client<'a, G> {
    ghost use Rattle.nr_serve.specs.Clients.{ClientSeen, IsServing};

    ghost Value = { ClientSeen G };

    ghost view = { λ client. record {
      map = client.shared.map.now;
      queue = client.shared.triggers.now;
      gate = client.shared.gate.now;
      reader = client.shared.reader;
      opened = client.opened.value;
      hands = client.hands;
      guest = client.lobby;
      gets = client.gets;
    } };

    ghost invariant = { λ client. IsServing client.shared.map.now client.shared.triggers.now client.opened.value client.hands };
}

impl<'a, G: Gate> Client<'a, G> {
    ghost use Rattle.nr_serve.specs.Applied.{HearsApplied};
    ghost use Rattle.nr_serve.specs.Gates.{AsksGate};

    /// A client of a map, over a queue that takes all keys of this map. It sleeps in the lobby, so that
    /// has to be the one that the map's dataflow raises; a `Service` sees to that.
    pub fn open(
        map: &'a ReaderMap,
        reader: Reader,
        triggers: &'a Triggers,
        poster: Poster,
        lobby: &'a Lobby,
        gate: &'a G,
    ) -> Client<'a, G>
        requires map { reader.table ≡ map.now }
        requires queue { poster.queue ≡ triggers.now.id }
        requires keys { map.now.shape.keys ≤ poster.keys }
        ensures places { (result.map ≡ map.now) × (result.queue ≡ triggers.now) }
        ensures gate { (result.gate ≡ gate.now) × (result.reader ≡ reader.number) }
        ensures hands { result.hands ≡ record { reader = reader; poster = poster; kept = None; sends = 0 } }
        ensures opened { result.opened ≡ result.hands }
        ensures guest { (result.guest.lobby ≡ lobby.now) × IsNew result.guest }
        ensures counts { result.gets ≡ 0 }
    {
        let number = reader.number();
        let hands = Hands::of(reader, poster);
        let opened = Snapshot::of(&hands);
        Client {
            shared: Shared {
                map,
                triggers,
                gate,
                reader: number,
            },
            lobby: Watched::of(lobby),
            hands,
            gets: 0,
            opened,
        }
    }

    /// A client of a service whose queue takes all keys of its map.
    pub fn of_service(
        service: &'a Service,
        reader: Reader,
        poster: Poster,
        gate: &'a G,
    ) -> Client<'a, G>
        requires map { reader.table ≡ service.now.map }
        requires queue { poster.queue ≡ service.now.queue.id }
        requires keys { service.now.map.shape.keys ≤ poster.keys }
        ensures places { (result.map ≡ service.now.map) × (result.queue ≡ service.now.queue) }
        ensures gate { (result.gate ≡ gate.now) × (result.reader ≡ reader.number) }
        ensures hands { result.hands ≡ record { reader = reader; poster = poster; kept = None; sends = 0 } }
        ensures opened { result.opened ≡ result.hands }
        ensures guest { (result.guest.lobby ≡ service.now.lobby) × IsNew result.guest }
        ensures counts { result.gets ≡ 0 }
    {
        let (map, triggers) = (service.map(), service.triggers());
        Client::open(map, reader, triggers, poster, service.lobby(), gate)
    }

    /// Gets the rows of a key, in at most that many tries. A try posts the ticket that is kept, if
    /// any, and looks the key up. If it is filled, the gate is asked until it lets pass; then the
    /// caller's set has the rows, and the get ends with `Rows`. It ends with `Barred` where the
    /// gate said no a million times. If the key is missing, it is requested, unless a ticket is
    /// still kept, and a ticket of that is posted, or kept where the queue is full; before the
    /// next try the client sleeps in the lobby, unless it keeps a ticket or the key was filled
    /// meanwhile. After the last try it ends with `GaveUp`. The set is unchanged unless it ends
    /// with `Rows`. The client's guest rings the bell for each ticket that is posted, and raises
    /// nothing else.
    pub fn get<R: Wait>(&mut self, rt: &R, key: u32, tries: u32, rows: &mut RowSet) -> Got
        requires { key < self.old.map.shape.keys }
        ensures gets { Gets key tries self.old.hands rows.old self.new.hands rows.new result }
        ensures waits { GetsSleeping key tries self.old.hands rows.old self.old.guest self.new.hands rows.new self.new.guest (Ok result) }
        ensures released { self.new.hands.reader.holds ≡ None }
        ensures at_once { tries ≡ 0 → self.new.hands ≡ self.old.hands }
        ensures rings { Rings self.old.hands self.old.guest self.new.hands self.new.guest }
        ensures counts { self.new.gets ≡ capped (self.old.gets + 1) }
        ensures asks { AsksGate G.lets G.hears self.old.gate self.old.reader self.new.gets result }
        ensures places { (self.new.map ≡ self.old.map) × (self.new.queue ≡ self.old.queue) }
        ensures gate { (self.new.gate ≡ self.old.gate) × (self.new.reader ≡ self.old.reader) }
        ensures opened { self.new.opened ≡ self.old.opened }
    {
        match self.get_within(rt, key, tries, rows, &NoLimit) {
            Ok(got) => got,
            Err(_) => unreachable!(),
        }
    }

    /// As `get`, but a sleep lasts until that time at most. One that timed out ends the get with
    /// `TooLate`, after fewer tries, which found a hole; the set is unchanged then, and the ticket that
    /// was posted stays under way. Nothing else answers `TooLate`, and no time is promised. A clock that
    /// can't be read ends a sleep too.
    pub fn get_until<R: Wait + Clock>(
        &mut self,
        rt: &R,
        key: u32,
        tries: u32,
        rows: &mut RowSet,
        until: Instant,
    ) -> Result<Got, TooLate>
        requires { key < self.old.map.shape.keys }
        ensures gets { GetsInTime key tries self.old.hands rows.old self.new.hands rows.new result }
        ensures waits { GetsSleeping key tries self.old.hands rows.old self.old.guest self.new.hands rows.new self.new.guest result }
        ensures late { IfErr result (λ late. late.until ≡ until) }
        ensures released { self.new.hands.reader.holds ≡ None }
        ensures at_once { tries ≡ 0 → self.new.hands ≡ self.old.hands }
        ensures rings { Rings self.old.hands self.old.guest self.new.hands self.new.guest }
        ensures counts { self.new.gets ≡ capped (self.old.gets + 1) }
        ensures asks { IfOk result (λ got. AsksGate G.lets G.hears self.old.gate self.old.reader self.new.gets got) }
        ensures places { (self.new.map ≡ self.old.map) × (self.new.queue ≡ self.old.queue) }
        ensures gate { (self.new.gate ≡ self.old.gate) × (self.new.reader ≡ self.old.reader) }
        ensures opened { self.new.opened ≡ self.old.opened }
    {
        self.get_within(rt, key, tries, rows, &until)
    }

    // A get whose sleeps have that limit.
    fn get_within<L: Limit<R>, R: Wait>(
        &mut self,
        rt: &R,
        key: u32,
        tries: u32,
        rows: &mut RowSet,
        limit: &L,
    ) -> Result<Got, TooLate>
        requires { key < self.old.map.shape.keys }
        ensures gets { GetsInTime key tries self.old.hands rows.old self.new.hands rows.new result }
        ensures waits { GetsSleeping key tries self.old.hands rows.old self.old.guest self.new.hands rows.new self.new.guest result }
        ensures late { IfErr result (λ late. L.lapses limit.now late) }
        ensures released { self.new.hands.reader.holds ≡ None }
        ensures at_once { tries ≡ 0 → self.new.hands ≡ self.old.hands }
        ensures rings { Rings self.old.hands self.old.guest self.new.hands self.new.guest }
        ensures counts { self.new.gets ≡ capped (self.old.gets + 1) }
        ensures asks { IfOk result (λ got. AsksGate G.lets G.hears self.old.gate self.old.reader self.new.gets got) }
        ensures places { (self.new.map ≡ self.old.map) × (self.new.queue ≡ self.old.queue) }
        ensures gate { (self.new.gate ≡ self.old.gate) × (self.new.reader ≡ self.old.reader) }
        ensures opened { self.new.opened ≡ self.old.opened }
    {
        self.gets = self.gets.saturating_add(1);
        get_by_tries(
            rt,
            &self.shared,
            &mut self.lobby,
            limit,
            self.gets,
            key,
            tries,
            &mut self.hands,
            rows,
        )
    }

    /// A note of what the client has seen, in 1 step of its reader. Else the client stays as it is.
    pub fn note(&mut self) -> Note
        ensures own { result.table ≡ self.old.map }
        ensures note { result ≡ known_to self.old.hands.reader }
        ensures knows { KnowsOwn self.old.hands.reader }
        ensures rest { self.new ≡ record self.old { hands = with_idle_reader self.old.hands (with_step self.old.hands.reader) } }
    {
        self.hands.reader.note(self.shared.map)
    }

    /// The client learns, in 1 step of its reader, all that the note's maker had seen.
    pub fn hear(&mut self, note: Note)
        requires { note.table ≡ self.old.map }
        ensures hears { HearsNote 1 note self.old.hands.reader self.new.hands.reader }
        ensures rest { self.new ≡ record self.old { hands = with_idle_reader self.old.hands self.new.hands.reader } }
    {
        self.hands.reader.hear(self.shared.map, note)
    }

    /// Sleeps until the dataflow told that it has applied so much at least, hears in 4 steps of its
    /// reader the note that tells it, and gives the amount that was told. A get after that finds what was
    /// applied then, or later rows (`laws::gets_what_was_applied`). None, and no step, where the lobby
    /// was closed and nothing had told it.
    pub fn wait_applied<M: Measure, R: Wait>(
        &mut self,
        rt: &R,
        applied: &Applied<'_, M>,
        least: u64,
    ) -> Option<u64>
        requires lobby { applied.now ≡ self.old.guest.lobby }
        requires notes { (amount : _) (note : _) → M.reached amount note → note.table ≡ self.old.map }
        ensures hears { HearsApplied M.reached least self.new.guest self.old.hands.reader self.new.hands.reader result }
        ensures looks { OnlyLooks self.old.guest self.new.guest }
        ensures rest { self.new ≡ record self.old { hands = with_idle_reader self.old.hands self.new.hands.reader; guest = self.new.guest } }
    {
        applied.wait(
            rt,
            self.shared.map,
            &mut self.lobby,
            &mut self.hands.reader,
            least,
        )
    }

    /// How often the rows of a key of this one's group couldn't be had, up to 2^64 - 1. A get whose
    /// tries found no rows tells by it, once it was read before too, that a source failed.
    pub fn failures_for(&mut self, key: u32) -> u64
        ensures looks { OnlyLooks self.old.guest self.new.guest }
        ensures found { slice_index self.new.guest.seen (failed_at key) ≡ result }
        ensures rest { self.new ≡ record self.old { guest = self.new.guest } }
    {
        self.lobby.failures_for(key)
    }

    /// How many of its requests were answered `Send`, up to 2^64 - 1.
    pub fn sends(&self) -> u64
        ensures { result ≡ capped (length (sent (since self.now.opened self.now.hands))) }
    {
        self.hands.sends
    }

    /// Hands out what the client was opened with, and the ticket that it keeps.
    pub fn end(self) -> (Reader, Poster, Option<Ticket>)
        ensures reader { let (reader, _, _) = result in reader ≡ self.entry.hands.reader }
        ensures poster { let (_, poster, _) = result in poster ≡ self.entry.hands.poster }
        ensures kept { let (_, _, kept) = result in kept ≡ self.entry.hands.kept }
    {
        let Client {
            shared,
            lobby: _,
            hands,
            gets: _,
            opened: _,
        } = self;
        let Hands {
            reader,
            poster,
            kept,
            sends: _,
        } = hands;
        (reader.into_reader(shared.map), poster, kept)
    }
}
