//! How much a dataflow has applied so far. It is told with a note, so that a client which waits for it
//! finds what was applied.
ghost use Rattle.std.specs.Prelude.{◌≡◌, ◌≤◌, IfSome, None};
ghost use Rattle.nr_board.specs.Meetings.{with_steps};
ghost use Rattle.nr_map.specs.Hands.{idle};
ghost use Rattle.nr_serve.specs.Applied.{HearsApplied};
ghost use Rattle.nr_serve.specs.Counts.{OnlyLooks};

use crate::hands::split_by_hand;
use crate::lobby::Lobby;
use crate::service::Service;
use crate::watched::Watched;
use nr_map::{Hand, Note, ReaderMap};
use std::marker::{Brand, Model, PhantomData};
use std::sync::{Mutex, Wait};

/// What it means that so much was applied, for the proof alone. A caller picks it where it calls a
/// function over `M: Measure` at `Brand`.
pub trait Measure {
    ghost use Rattle.std.specs.Prelude.{ℕ};
    ghost use Rattle.nr_board.specs.Meetings.{Known};

    /// Of the amount, and of a note whose maker had seen all of it.
    ghost reached: { ℕ → Known → Type 0 };
}

impl Measure for Brand {
    ghost reached = { λ _ _. Unit {0} };
}

// The amount that was told last. Nothing was told where there is no note.
#[derive(Drop)]
struct Told<M: Measure> {
    amount: u64,
    note: Option<Note>,
    of: PhantomData<M>,
}

impl<M: Measure> Model for Told<M> {
    ghost use Rattle.std.specs.Prelude.{◌≡◌, MatchOption};
    ghost use Rattle.nr_serve.specs.Applied.{Telling};

    ghost Value = { Telling };

    ghost view = { λ told. record { amount = told.amount; note = told.note } };

    ghost invariant = { λ told. MatchOption told.note (told.amount ≡ 0) (λ note. M.reached told.amount note) };
}

impl<M: Measure> Told<M> {
    // Unless more was told before.
    fn raise(&mut self, amount: u64, note: Note)
        requires { M.reached amount note }
    {
        if self.amount <= amount {
            self.amount = amount;
            self.note = Some(note);
        }
    }

    // The amount with a note of it, if it is so much at least. Another note stays, which says the same.
    fn of_at_least(&mut self, map: &ReaderMap, reader: &mut Hand, least: u64) -> Option<(u64, Note)>
        requires own { reader.old.reader.table ≡ map.now }
        requires idle { reader.old.key ≡ None }
        requires notes { (amount : _) (note : _) → M.reached amount note → note.table ≡ map.now }
        ensures told { IfSome result (λ (amount, rest). (least ≤ amount) × M.reached amount rest × (reader.new ≡ idle (with_steps 3 reader.old.reader))) }
        ensures none { result ≡ None → reader.new ≡ reader.old }
    {
        if self.amount < least {
            return None;
        }
        let note = self.note.take()?;
        let (mine, kept) = split_by_hand(map, reader, note);
        self.note = Some(kept);
        Some((self.amount, mine))
    }
}

/// How much was applied so far, as the dataflow of a service told it.
#[derive(Drop)]
pub struct Applied<'a, M: Measure> {
    lobby: &'a Lobby,
    told: Mutex<Told<M>>,
}

impl<'a, M: Measure> Model for Applied<'a, M> {
    ghost use Rattle.atomic_table.specs.Seated.{TableId};

    ghost Value = { TableId };

    ghost view = { λ applied. applied.lobby.now };
}

impl<'a, M: Measure> Applied<'a, M> {
    /// Nothing was told so far.
    pub fn open(service: &'a Service) -> Applied<'a, M>
        ensures { result ≡ service.now.lobby }
    {
        Applied {
            lobby: service.lobby(),
            told: Mutex::new(Told {
                amount: 0,
                note: None,
                of: PhantomData,
            }),
        }
    }

    pub(crate) fn raise<R: Wait>(&self, rt: &R, amount: u64, note: Note)
        requires { M.reached amount note }
    {
        self.told.lock(rt).raise(amount, note);
    }

    fn look<R: Wait>(
        &self,
        rt: &R,
        map: &ReaderMap,
        reader: &mut Hand,
        least: u64,
    ) -> Option<(u64, Note)>
        requires own { reader.old.reader.table ≡ map.now }
        requires idle { reader.old.key ≡ None }
        requires notes { (amount : _) (note : _) → M.reached amount note → note.table ≡ map.now }
        ensures told { IfSome result (λ (amount, rest). (least ≤ amount) × M.reached amount rest × (reader.new ≡ idle (with_steps 3 reader.old.reader))) }
        ensures none { result ≡ None → reader.new ≡ reader.old }
    {
        self.told.lock(rt).of_at_least(map, reader, least)
    }

    /// Sleeps until so much at least was told, or the lobby is closed; and hears of it.
    #[tactic(auto, using(crate::proofs::Later::looks_none, crate::proofs::Later::looks_both))]
    pub(crate) fn wait<R: Wait>(
        &self,
        rt: &R,
        map: &ReaderMap,
        lobby: &mut Watched<'_>,
        reader: &mut Hand,
        least: u64,
    ) -> Option<u64>
        requires own { reader.old.reader.table ≡ map.now }
        requires idle { reader.old.key ≡ None }
        requires notes { (amount : _) (note : _) → M.reached amount note → note.table ≡ map.now }
        ensures hears { HearsApplied M.reached least lobby.new reader.old.reader reader.new.reader result }
        ensures idle { reader.new.key ≡ None }
        ensures looks { OnlyLooks lobby.old lobby.new }
    {
        for _ in rt.forever() {
            let tellings = lobby.tellings();
            if let Some((amount, note)) = self.look(rt, map, reader, least) {
                reader.hear(map, note);
                return Some(amount);
            }
            if lobby.is_closed() {
                return None;
            }
            lobby.wait_for_telling(rt, tellings);
        }
        unreachable!()
    }
}
