//! A store beside what was done to it, as a lock keeps both: the type says that this was done by the store's own
//! calls, one after another from its opening on, so it is true for whoever takes the lock.
ghost use Rattle.std.specs.Prelude.{◌≡◌, ◌≢◌, ◌<◌, ◌∷◌, [], IfOk, AllPairs};
ghost use Rattle.nr_tour.specs.Deeds.{Did, EachHeldIsFresh, with_begun, with_landed};

use crate::cache::deeds::{Deed, tell_begun, tell_landed};
use nr_cache::{Begun, Flight, FoundValue, GivenValue, Landed, Store, laws};
use nr_idmap::IdMap;
use std::alloc::{AllocError, Global};
use std::collections::VecDeque;

/// A store with its map, and what was done, the latest first.
pub struct Desk<'m> {
    pub map: &'m IdMap,
    pub store: Store,
    pub deeds: VecDeque<Deed>,
    ghost own: { store.keeper.table ≡ map.now },
    ghost did: { ∥ Did deeds.items store ∥₁ },
}

impl<'m> Desk<'m> {
    /// A new store, to which nothing was done.
    pub fn of(alloc: Global, map: &'m IdMap, store: Store) -> Desk<'m>
        requires own { store.keeper.table ≡ map.now }
        requires did { Did [] store }
        ensures deeds { result.deeds.items ≡ [] }
    {
        Desk {
            map,
            store,
            deeds: VecDeque::new(alloc),
        }
    }

    /// Begins an id's flight, unless it has a value or its flight is under way. Where there is no memory to tell
    /// of it nothing happens.
    pub fn begin(&mut self, id: u64) -> Result<Begun, AllocError>
        requires id { 0 < id }
        ensures told { IfOk result (λ begun. self.new.deeds.items ≡ with_begun begun self.old.deeds.items) }
    {
        self.deeds.reserve(1)?;
        let begun = self.store.begin(self.map, id, 0);
        tell_begun(&mut self.deeds, begun);
        Ok(begun)
    }

    /// Ends the flight of that number by its value, which is held where nothing outdated the flight. Where there
    /// is no memory to tell of it nothing happens.
    pub fn land(
        &mut self,
        number: u64,
        value: u64,
        gone: &mut GivenValue,
    ) -> Result<Landed, AllocError>
        ensures told { IfOk result (λ landed. self.new.deeds.items ≡ with_landed number landed self.old.deeds.items) }
    {
        laws::holds_fresh::<GivenValue>();
        self.deeds.reserve(1)?;
        let landed = self.store.land(self.map, number, 1, value, 1, 0, gone);
        tell_landed(&mut self.deeds, number, landed);
        Ok(landed)
    }

    /// Ends the flight of that number without a value.
    pub fn fail(&mut self, number: u64) -> Option<Flight> {
        self.store.fail(number)
    }

    /// An id's value, if it has one.
    pub fn look(&mut self, id: u64) -> Option<FoundValue>
        requires id { 0 < id }
    {
        self.store.look(self.map, id)
    }

    /// Takes an id's value to make room: whether it had one.
    pub fn evict(&mut self, id: u64) -> bool
        requires id { 0 < id }
    {
        self.store.evict(self.map, id)
    }

    /// Takes an id's value, and outdates its flight: whether it had a value. Where there is no memory to tell of
    /// it nothing happens.
    pub fn invalidate(&mut self, id: u64) -> Result<bool, AllocError>
        requires id { 0 < id }
        ensures told { IfOk result (λ _. self.new.deeds.items ≡ Deed.Invalidated id ∷ self.old.deeds.items) }
    {
        self.deeds.reserve(1)?;
        let had = self.store.invalidate(self.map, id);
        self.deeds.push_front_reserved(Deed::Invalidated(id));
        Ok(had)
    }

    /// What was done, and the flights that are under way yet: no two of one id.
    pub fn end(self) -> (VecDeque<Deed>, Vec<Flight>)
        ensures fresh { let (deeds, _) = result in ∥ EachHeldIsFresh deeds.items ∥₁ }
        ensures apart { let (_, left) = result in AllPairs (λ one other. one.id ≢ other.id) left.items }
    {
        laws::stores_in_order::<GivenValue>();
        let Desk {
            map: _,
            store,
            deeds,
        } = self;
        (deeds, store.close())
    }
}
