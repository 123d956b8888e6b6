//! How much a dataflow by id has applied so far. It is told with a note of its map, so that a client which
//! waits for it finds what was applied.
ghost use Rattle.std.specs.Prelude.{◌≡◌, ◌≤◌, IfSome, None};
ghost use Rattle.nr_serve.specs.Counts.{OnlyLooks};
ghost use Rattle.nr_idmap.specs.IdNotes.{note_table_of, with_steps_of_split};
ghost use Rattle.nr_idmap.specs.Keepers.{id_table_of};
ghost use Rattle.nr_idserve.specs.IdApplied.{HearsIdApplied};

use crate::service::IdService;
use nr_idmap::{IdMap, IdNote, IdReader};
use nr_serve::{Lobby, Watched};
use std::marker::{Brand, Model, PhantomData};
use std::sync::{Mutex, Wait};

/// What it means that so much was applied, for the proof alone, as nr_serve's `Measure`.
pub trait IdMeasure {
    ghost use Rattle.std.specs.Prelude.{ℕ};
    ghost use Rattle.nr_idmap.specs.IdNotes.{IdKnown};

    /// Of the amount, and of a note whose maker had seen all of it.
    ghost reached: { ℕ → IdKnown → Type 0 };
}

impl IdMeasure for Brand {
    ghost reached = { λ _ _. Unit {0} };
}

// The amount that was told last. Nothing was told where there is no note.
#[derive(Drop)]
struct Told<M: IdMeasure> {
    amount: u64,
    note: Option<IdNote>,
    of: PhantomData<M>,
}

impl<M: IdMeasure> Model for Told<M> {
    ghost use Rattle.std.specs.Prelude.{◌≡◌, MatchOption};
    ghost use Rattle.nr_idserve.specs.IdApplied.{IdTelling};

    ghost Value = { IdTelling };

    ghost view = { λ told. record { amount = told.amount; note = told.note } };

    ghost invariant = { λ told. MatchOption told.note (told.amount ≡ 0) (λ note. M.reached told.amount note) };
}

impl<M: IdMeasure> Told<M> {
    // Unless more was told before.
    fn raise(&mut self, amount: u64, note: IdNote)
        requires { M.reached amount note }
    {
        if self.amount <= amount {
            self.amount = amount;
            self.note = Some(note);
        }
    }

    // The amount with a note of it, if it is so much at least. Another note stays, which says the same.
    fn of_at_least(
        &mut self,
        map: &IdMap,
        reader: &mut IdReader,
        least: u64,
    ) -> Option<(u64, IdNote)>
        requires own { id_table_of reader.old ≡ map.now }
        requires notes { (amount : _) (note : _) → M.reached amount note → note_table_of note ≡ map.now }
        ensures told { IfSome result (λ (amount, rest). (least ≤ amount) × M.reached amount rest × (reader.new ≡ with_steps_of_split reader.old)) }
        ensures none { result ≡ None → reader.new ≡ reader.old }
    {
        if self.amount < least {
            return None;
        }
        let note = self.note.take()?;
        let (mine, kept) = map.split_note(reader, note);
        self.note = Some(kept);
        Some((self.amount, mine))
    }
}

/// How much was applied so far, as the dataflow of a service by id told it.
#[derive(Drop)]
pub struct IdApplied<'a, M: IdMeasure> {
    lobby: &'a Lobby,
    told: Mutex<Told<M>>,
}

impl<'a, M: IdMeasure> Model for IdApplied<'a, M> {
    ghost use Rattle.atomic_table.specs.Seated.{TableId};

    ghost Value = { TableId };

    ghost view = { λ applied. applied.lobby.now };
}

impl<'a, M: IdMeasure> IdApplied<'a, M> {
    /// Nothing was told so far.
    pub fn open(service: &'a IdService) -> IdApplied<'a, M>
        ensures { result ≡ service.now.lobby }
    {
        IdApplied {
            lobby: service.lobby(),
            told: Mutex::new(Told {
                amount: 0,
                note: None,
                of: PhantomData,
            }),
        }
    }

    pub(crate) fn raise<R: Wait>(&self, rt: &R, amount: u64, note: IdNote)
        requires { M.reached amount note }
    {
        self.told.lock(rt).raise(amount, note);
    }

    fn look<R: Wait>(
        &self,
        rt: &R,
        map: &IdMap,
        reader: &mut IdReader,
        least: u64,
    ) -> Option<(u64, IdNote)>
        requires own { id_table_of reader.old ≡ map.now }
        requires notes { (amount : _) (note : _) → M.reached amount note → note_table_of note ≡ map.now }
        ensures told { IfSome result (λ (amount, rest). (least ≤ amount) × M.reached amount rest × (reader.new ≡ with_steps_of_split reader.old)) }
        ensures none { result ≡ None → reader.new ≡ reader.old }
    {
        self.told.lock(rt).of_at_least(map, reader, least)
    }

    /// Sleeps until so much at least was told, or the lobby is closed; and hears of it.
    #[tactic(auto, using(nr_serve::proofs::Later::looks_none, nr_serve::proofs::Later::looks_both))]
    pub(crate) fn wait<R: Wait>(
        &self,
        rt: &R,
        map: &IdMap,
        lobby: &mut Watched<'_>,
        reader: &mut IdReader,
        least: u64,
    ) -> Option<u64>
        requires own { id_table_of reader.old ≡ map.now }
        requires notes { (amount : _) (note : _) → M.reached amount note → note_table_of note ≡ map.now }
        ensures hears { HearsIdApplied M.reached least lobby.new reader.old reader.new result }
        ensures own { id_table_of reader.new ≡ map.now }
        ensures looks { OnlyLooks lobby.old lobby.new }
    {
        for _ in rt.forever() {
            let tellings = lobby.tellings();
            if let Some((amount, note)) = self.look(rt, map, reader, least) {
                map.hear(reader, note);
                return Some(amount);
            }
            if lobby.is_closed() {
                return None;
            }
            lobby.wait_for_telling(rt, tellings);
        }
        unreachable!()
    }
}
