//! The queue of tickets.
ghost use Rattle.std.specs.Prelude.{◌≡◌, ◌<◌, ◌+◌, ◌⊎◌, ◌↔◌, ℕ, length, [], ◌++◌, ◌∷◌, Err, IfOk, IfErr, IfSome, IsTrue, MatchOption, MatchResult, None, Some};
ghost use Rattle.crossbeam_queue.specs.Passes.{view as known};
ghost use Rattle.nr_model.specs.Sizes.{IsBadSize};
ghost use Rattle.nr_board.specs.Views.{carried_by};
ghost use Rattle.nr_trigger.specs.Posts.{IsNoteOf, Limits, of_map, upquery_of};
ghost use Rattle.nr_trigger.specs.declared.faults.PostFault.TheVariants.{Full as full};
ghost use Rattle.nr_trigger.specs.declared.faults.TakeFault.TheVariants.{Empty as empty};
ghost use Rattle.nr_trigger.specs.Tokens.{IsOpenedQueue, IsOpenedWithin, IsSeated, IsSamePoster, IsSameTaker, WasEmpty, WasFull, new_poster, new_taker, poster_tried, taker_tried};
ghost use Rattle.nr_trigger.specs.Views.{Opener};

use crate::attempts::Attempts;
use crate::faults::{PostFault, TakeFault};
use crate::post::{Post, Upquery};
use crate::rule::{Begins, Limit, Rule, Seats};
use crate::tokens::{Poster, Taker};
use crate::trigger::Trigger;
use crate::view::View;
use crossbeam_queue::{Pass, RuledArrayQueue};
use nr_map::{MAX_LARGE_READERS, MAX_LARGE_SLOTS, Note, ReaderMap, Ticket};
use nr_model::{OpenFault, is_bad_size};
use std::alloc::{AllocError, Global};
use std::marker::{Brand, Model};
use std::sync::Wait;

pub const MAX_CAPACITY: u32 = 65536;

pub const MAX_POSTERS: u32 = 1024;

/// Tickets on their way, shared by the posters and the taker.
#[derive(Drop)]
pub struct Triggers {
    pub(crate) queue: RuledArrayQueue<Post, View, Rule>,
}

impl Model for Triggers {
    ghost use Rattle.crossbeam_queue.specs.Passes.{ruled_capacity};
    ghost use Rattle.nr_trigger.specs.Tokens.{Queue};

    ghost Value = { Queue };

    ghost view = { λ triggers. record { id = triggers.queue.table.shared.table_id; capacity = ruled_capacity triggers.queue } };
}

impl Triggers {
    /// A queue with its posters and its taker. Refused where a size is out of its limits, a
    /// capacity of 1 to 65,536 tickets and 1 to 1,024 posters, and then where there is no memory.
    /// Contracts are told a bound above each key that will be posted, a ghost value.
    pub fn open(
        alloc: Global,
        capacity: u32,
        posters: u32,
    ) -> Result<(Triggers, Vec<Poster>, Taker), OpenFault>
        ghost keys: { ℕ }
        ensures bad_size { (result ≡ Err OpenFault.BadSize) ↔ (IsBadSize 65536 capacity ⊎ IsBadSize 1024 posters) }
        ensures ok { IfOk result (λ (queue, all, taker). IsOpenedQueue capacity posters keys queue all.items taker) }
    {
        if is_bad_size(MAX_CAPACITY, capacity) || is_bad_size(MAX_POSTERS, posters) {
            return Err(OpenFault::BadSize);
        }
        seated(alloc, capacity, posters).map_err(|_| OpenFault::Memory)
    }

    /// As `open`, for programs that need more: a capacity of 1 to 4,194,303 tickets and 1 to 65,535
    /// posters.
    pub fn open_large(
        alloc: Global,
        capacity: u32,
        posters: u32,
    ) -> Result<(Triggers, Vec<Poster>, Taker), OpenFault>
        ghost keys: { ℕ }
        ensures bad_size { (result ≡ Err OpenFault.BadSize) ↔ (IsBadSize 4194303 capacity ⊎ IsBadSize 65535 posters) }
        ensures ok { IfOk result (λ (queue, all, taker). IsOpenedQueue capacity posters keys queue all.items taker) }
    {
        if is_bad_size(MAX_LARGE_SLOTS, capacity) || is_bad_size(MAX_LARGE_READERS, posters) {
            return Err(OpenFault::BadSize);
        }
        seated(alloc, capacity, posters).map_err(|_| OpenFault::Memory)
    }

    /// As `open_large`, for tickets of a map's keys, with which notes of that map may go.
    pub fn open_for(
        alloc: Global,
        map: &ReaderMap,
        capacity: u32,
        posters: u32,
    ) -> Result<(Triggers, Vec<Poster>, Taker), OpenFault>
        ensures bad_size { (result ≡ Err OpenFault.BadSize) ↔ (IsBadSize 4194303 capacity ⊎ IsBadSize 65535 posters) }
        ensures ok { IfOk result (λ (queue, all, taker). IsOpenedWithin (of_map map.now) capacity posters queue all.items taker) }
    {
        if is_bad_size(MAX_LARGE_SLOTS, capacity) || is_bad_size(MAX_LARGE_READERS, posters) {
            return Err(OpenFault::BadSize);
        }
        seated_for(alloc, map, capacity, posters).map_err(|_| OpenFault::Memory)
    }

    /// Puts what the ticket names at the back, and spends the ticket. It comes back where the queue
    /// was full at one moment of the call. May wait for a thread that is within a call of its own,
    /// and waits for ever once the queue has carried 2^62 tickets.
    pub fn post<R: Wait>(&self, rt: &R, poster: &mut Poster, ticket: Ticket) -> Result<(), Ticket>
        requires own { poster.old.queue ≡ self.now.id }
        requires key { ticket.key < poster.old.keys }
        ensures own { IsSamePoster poster.old poster.new }
        ensures tries { poster.new.tries ≡ poster.old.tries + 1 }
        ensures posted { MatchResult result (λ _. poster.new.posted ≡ poster.old.posted ++ upquery_of ticket ∷ []) (λ back. (back ≡ ticket) × (poster.new ≡ poster_tried poster.old)) }
        ensures notes { IfOk result (λ _. poster.new.notes ≡ poster.old.notes ++ None ∷ []) }
        ensures full { IfErr result (λ _. WasFull self.now.capacity poster.old) }
    {
        match self.push(rt, poster, Upquery::of(&ticket), None) {
            Ok(()) => {
                ticket.into_key();
                Ok(())
            }
            Err(_) => Err(ticket),
        }
    }

    /// As `post`, with a note of what the asker had seen, for the trigger's taker. Both come back
    /// where the queue was full at one moment of the call.
    pub fn post_with<R: Wait>(
        &self,
        rt: &R,
        poster: &mut Poster,
        ticket: Ticket,
        note: Note,
    ) -> Result<(), (Ticket, Note)>
        requires own { poster.old.queue ≡ self.now.id }
        requires key { ticket.key < poster.old.keys }
        requires note { poster.old.map ≡ Some note.table }
        ensures own { IsSamePoster poster.old poster.new }
        ensures tries { poster.new.tries ≡ poster.old.tries + 1 }
        ensures posted { MatchResult result (λ _. poster.new.posted ≡ poster.old.posted ++ upquery_of ticket ∷ []) (λ back. (back ≡ (ticket, note)) × (poster.new ≡ poster_tried poster.old)) }
        ensures notes { IfOk result (λ _. poster.new.notes ≡ poster.old.notes ++ Some note ∷ []) }
        ensures full { IfErr result (λ _. WasFull self.now.capacity poster.old) }
    {
        match self.push(rt, poster, Upquery::of(&ticket), Some(note)) {
            Ok(()) => {
                Ticket::into_key(ticket);
                Ok(())
            }
            Err(back) => match back.note {
                Some(note) => Err((ticket, note)),
                None => unreachable!(),
            },
        }
    }

    /// As `post`, of a request that has no ticket.
    pub fn post_upquery<R: Wait>(
        &self,
        rt: &R,
        poster: &mut Poster,
        upquery: Upquery,
    ) -> Result<(), Upquery>
        requires own { poster.old.queue ≡ self.now.id }
        requires key { upquery.key < poster.old.keys }
        ensures own { IsSamePoster poster.old poster.new }
        ensures tries { poster.new.tries ≡ poster.old.tries + 1 }
        ensures posted { MatchResult result (λ _. poster.new.posted ≡ poster.old.posted ++ upquery ∷ []) (λ back. (back ≡ upquery) × (poster.new ≡ poster_tried poster.old)) }
        ensures notes { IfOk result (λ _. poster.new.notes ≡ poster.old.notes ++ None ∷ []) }
        ensures full { IfErr result (λ _. WasFull self.now.capacity poster.old) }
    {
        match self.push(rt, poster, upquery, None) {
            Ok(()) => Ok(()),
            Err(_) => Err(upquery),
        }
    }

    /// Takes what is at the front. None where the queue was empty at one moment of the call. May
    /// wait for a thread that is within a call of its own, and waits for ever once the queue has
    /// carried 2^62 tickets.
    pub fn take<R: Wait>(&self, rt: &R, taker: &mut Taker) -> Option<Trigger>
        requires own { taker.old.queue ≡ self.now.id }
        ensures own { IsSameTaker taker.old taker.new }
        ensures tries { taker.new.tries ≡ taker.old.tries + 1 }
        ensures taken { MatchOption result (taker.new ≡ taker_tried taker.old) (λ trigger. taker.new.taken ≡ taker.old.taken ++ trigger ∷ []) }
        ensures key { MatchOption result (WasEmpty taker.old) (λ trigger. trigger.upquery.key < taker.old.keys) }
        ensures note { IfSome result (λ trigger. IsNoteOf taker.old.map trigger.note) }
    {
        Some(Trigger::of(self.pop(rt, taker)?))
    }

    /// One attempt to put a request at the back, for callers that may not wait; theirs is the
    /// ticket's end too. Nothing is posted where the queue is full, where another thread is in the
    /// way within a call of its own, and where the queue has carried 2^62 requests. Waits for
    /// nobody.
    pub fn try_post(&self, poster: &mut Poster, upquery: Upquery) -> Result<(), PostFault>
        requires own { poster.old.queue ≡ self.now.id }
        requires key { upquery.key < poster.old.keys }
        ensures own { IsSamePoster poster.old poster.new }
        ensures tries { poster.new.tries ≡ poster.old.tries + 1 }
        ensures posted { MatchResult result (λ _. poster.new.posted ≡ poster.old.posted ++ upquery ∷ []) (λ _. poster.new ≡ poster_tried poster.old) }
        ensures notes { IfOk result (λ _. poster.new.notes ≡ poster.old.notes ++ None ∷ []) }
        ensures full { IfErr result (λ fault. fault ≡ full → WasFull self.now.capacity poster.old) }
    {
        self.try_push(poster, upquery)
    }

    /// One attempt to take what is at the front. Nothing is taken where the queue is empty, where
    /// another thread is in the way within a call of its own, and where the queue has carried 2^62
    /// requests. Waits for nobody.
    pub fn try_take(&self, taker: &mut Taker) -> Result<Trigger, TakeFault>
        requires own { taker.old.queue ≡ self.now.id }
        ensures own { IsSameTaker taker.old taker.new }
        ensures tries { taker.new.tries ≡ taker.old.tries + 1 }
        ensures taken { MatchResult result (λ trigger. (taker.new.taken ≡ taker.old.taken ++ trigger ∷ []) × (trigger.upquery.key < taker.old.keys)) (λ _. taker.new ≡ taker_tried taker.old) }
        ensures note { IfOk result (λ trigger. IsNoteOf taker.old.map trigger.note) }
        ensures empty { IfErr result (λ fault. fault ≡ empty → WasEmpty taker.old) }
    {
        Ok(Trigger::of(self.try_pop(taker)?))
    }

    // The taker, whose pass is the queue's first.
    fn seat_taker(&self, seat: Pass<Post, View>) -> Taker
        ghost limits: { Limits }
        requires own { (seat.table_id ≡ self.now.id) × (carried_by seat ≡ []) }
        requires first { known seat ≡ Opener }
        ensures { result ≡ new_taker self.now.id limits 0 }
    {
        self.begin::<Brand>(seat)
    }

    fn begin<L: Limit>(&self, seat: Pass<Post, View>) -> Taker
        requires own { (seat.table_id ≡ self.now.id) × (carried_by seat ≡ []) }
        requires first { known seat ≡ Opener }
        ensures { result ≡ new_taker self.now.id L.limits 0 }
    {
        let mut seat = seat;
        let _spare = self.queue.another::<Begins<L>>(&mut seat);
        Taker {
            seat,
            tries: Attempts::none(),
        }
    }

    // The next poster.
    fn seat_poster(&self, taker: &mut Taker, number: u32) -> Poster
        ghost limits: { Limits }
        requires next { taker.old ≡ new_taker self.now.id limits number }
        ensures taker { taker.new ≡ new_taker self.now.id limits (number + 1) }
        ensures poster { result ≡ new_poster self.now.id limits number }
    {
        let seat = self.queue.another::<Seats>(&mut taker.seat);
        Poster {
            seat,
            number,
            tries: Attempts::none(),
        }
    }
}

// A queue for that map.
fn seated_for(
    alloc: Global,
    map: &ReaderMap,
    capacity: u32,
    posters: u32,
) -> Result<(Triggers, Vec<Poster>, Taker), AllocError>
    ghost limits: { Limits }
    requires room { 0 < capacity }
    requires limits { limits ≡ of_map map.now }
    ensures { IfOk result (λ (queue, all, taker). IsOpenedWithin limits capacity posters queue all.items taker) }
{
    seated(alloc, capacity, posters)
}

// A queue of those sizes, with its tokens.
fn seated(
    alloc: Global,
    capacity: u32,
    posters: u32,
) -> Result<(Triggers, Vec<Poster>, Taker), AllocError>
    ghost limits: { Limits }
    requires { 0 < capacity }
    ensures { IfOk result (λ (queue, all, taker). IsOpenedWithin limits capacity posters queue all.items taker) }
{
    let (queue, seat) = RuledArrayQueue::ruled(alloc, capacity as usize)?;
    let triggers = Triggers { queue };
    let mut taker = triggers.seat_taker(seat);
    let tokens = seat_posters(alloc, &triggers, &mut taker, posters)?;
    Ok((triggers, tokens, taker))
}

// The posters, which the taker makes one by one.
fn seat_posters(
    alloc: Global,
    triggers: &Triggers,
    taker: &mut Taker,
    count: u32,
) -> Result<Vec<Poster>, AllocError>
    ghost limits: { Limits }
    requires { taker.old ≡ new_taker triggers.now.id limits 0 }
    ensures { IfOk result (λ posters. IsSeated triggers.now.id limits taker.new posters.items count) }
{
    let mut posters = Vec::with_capacity(alloc, count as usize)?;
    for number in 0..count {
        let poster = triggers.seat_poster(taker, number);
        posters.push(poster)?;
    }
    Ok(posters)
}
