//! A store, its flights and its end.
ghost use Rattle.std.specs.Prelude.{◌≡◌, ◌<◌, ◌↔◌, Err, IfOk};
ghost use Rattle.nr_cache.specs.Openings.{IsBadStoreShape, OpensStore};

use crate::choice::Choice;
use crate::flights::{Flight, Flights};
use crate::limits::Limit;
use crate::shape::StoreShape;
use crate::weights::Weights;
use nr_idmap::{IdMap, IdReader, IdWriter, OpenFault, ReadersOut, Reclaimed, Rest, laws};
use nr_model::SortedRows;
use std::alloc::Global;
use std::marker::Model;

/// What a miss comes to.
#[derive(Clone, Copy, Debug)]
pub enum Begun {
    /// The id has a value by now.
    Held,
    /// Its flight is under way.
    Wait(Flight),
    /// The caller loads it.
    Load(Flight),
    /// The caller loads it by itself: as many flights are under way as there is room for.
    Alone,
}

/// What becomes of a value.
#[derive(Clone, Copy, Debug)]
pub enum Landed {
    /// It is held. A value that nobody can see any more may have come out.
    Held(Reclaimed),
    /// It is the caller's own.
    Own,
}

/// What a cache decides, for one thread at a time. It can't be dropped: it is closed, and then tells which
/// flights are under way yet.
pub struct Store {
    // In this order, here and below, so that what each landing writes lies together: most often another processor wrote
    // it last.
    pub(crate) writer: IdWriter,
    /// Claims the groups of ids that get a value.
    pub(crate) asker: IdReader,
    pub(crate) flights: Flights,
    pub(crate) limit: Limit,
}

impl Model for Store {
    ghost use Rattle.std.specs.Prelude.{◌≡◌, ◌<◌};
    ghost use Rattle.nr_idmap.specs.Keepers.{id_rows, id_table_of};
    ghost use Rattle.nr_cache.specs.Places.{OwesNone};
    ghost use Rattle.nr_cache.specs.StoreSeen.{StoreSeen};
    ghost use Rattle.nr_cache.specs.Values.{BringsValues, HasSlots, IsWithin};
    ghost use Rattle.nr_cache.specs.Weights.{OnlyValuesWeigh};

    ghost Value = { StoreSeen };

    ghost view = { λ store. record {
      keeper = store.writer;
      asker = store.asker;
      underway = store.flights;
      capacity = store.limit.capacity;
      hand = store.limit.hand;
      load = store.limit.weights;
    } };

    ghost invariant = { λ store. (id_table_of store.asker ≡ store.writer.table) × OwesNone store.writer
        × HasSlots store.limit.capacity store.writer.table.map × (0 < id_rows store.writer.table)
        × BringsValues store.writer × (0 < store.limit.capacity) × IsWithin store.limit.capacity store.writer
        × OnlyValuesWeigh store.limit.weights store.writer × (store.limit.hand < store.writer.table.map.shape.keys) };
}

impl Store {
    ghost use Rattle.nr_map.specs.Remains.{TakenApart};
    ghost use Rattle.nr_cache.specs.Flights.{EndsChange, none_under_way};
    ghost use Rattle.nr_cache.specs.Stores.{BeginsFlight, ChangesId, Fails, FailsOldest};
    ghost use Rattle.nr_cache.specs.Values.{IsWithin};
    ghost use Rattle.nr_cache.specs.Weights.{IsLight, OnlyValuesWeigh};

    /// A store with its map and its readers, without a value. Refused where a size is out of its limits, and
    /// then where there is no memory; no other call takes any.
    pub fn open(
        alloc: Global,
        shape: &StoreShape,
    ) -> Result<(IdMap, Store, Vec<IdReader>), OpenFault>
        ensures bad_size { (result ≡ Err OpenFault.BadSize) ↔ IsBadStoreShape shape.now }
        ensures ok { IfOk result (λ (map, store, readers). OpensStore shape.now map store readers.items) }
    {
        if shape.is_bad() {
            return Err(OpenFault::BadSize);
        }
        let Ok((map, writer, mut readers)) = IdMap::open(alloc, &shape.of_ids()) else {
            return Err(OpenFault::Memory);
        };
        let Some(asker) = readers.pop() else {
            unreachable!()
        };
        let Ok(flights) = Flights::open(alloc, shape.flights as usize, shape.changes as usize)
        else {
            return Err(OpenFault::Memory);
        };
        let Ok(choice) = Choice::open(alloc, shape) else {
            return Err(OpenFault::Memory);
        };
        let Ok(weights) = Weights::open(alloc, shape.weight, map.ways()) else {
            return Err(OpenFault::Memory);
        };
        let limit = Limit {
            capacity: shape.capacity,
            hand: 0,
            weights,
            choice,
            found: SortedRows::new(),
        };
        let store = Store {
            writer,
            asker,
            flights,
            limit,
        };
        Ok((map, store, readers))
    }

    /// The store holds no more values than its capacity, and they weigh no more than they may; nothing but values
    /// weighs. Takes no step.
    pub fn is_within(&self)
        ensures capacity { IsWithin self.now.capacity self.now.keeper }
        ensures weight { IsLight self.now.load }
        ensures only { OnlyValuesWeigh self.now.load self.now.keeper }
        ensures hand { self.now.hand < self.now.keeper.table.map.shape.keys }
    {
        let _held = &self.writer;
        self.limit.weights.sum();
    }

    /// What a miss of an id comes to: the first begins the id's flight, with a number of the caller's for
    /// those that wait for it, and the others wait. Takes no memory.
    pub fn begin(&mut self, map: &IdMap, id: u64, mark: u64) -> Begun
        requires own { self.old.keeper.table ≡ map.now }
        requires id { 0 < id }
        ensures own { self.new.keeper.table ≡ map.now }
        ensures begins { BeginsFlight id mark self.old self.new result }
    {
        if let Some(flight) = self.flights.of(id) {
            return Begun::Wait(flight);
        }
        laws::unnamed_is_absent();
        laws::named_is_owed_or_resident();
        let way = map.way_of(&mut self.writer, id);
        self.writer.is_tied();
        if let Some(_way) = way {
            return Begun::Held;
        }
        match self.flights.begin(id, mark) {
            Some(flight) => Begun::Load(flight),
            None => Begun::Alone,
        }
    }

    /// Ends the flight of that number without a value.
    pub fn fail(&mut self, number: u64) -> Option<Flight>
        ensures { Fails number self.old self.new result }
    {
        self.flights.end(number)
    }

    /// Ends the flight that began first of those under way, without a value: none only where none is under way.
    /// Called until then, before the store is closed, it tells of each the mark by which those wake that wait for it.
    pub fn fail_oldest(&mut self) -> Option<Flight>
        ensures { FailsOldest self.old self.new result }
    {
        self.flights.end_oldest()
    }

    /// Begins a change of an id in the base: until it ends the values of the id's flights are their loaders'
    /// own. Whether there was room for it. What the id has stays.
    pub fn begin_change(&mut self, id: u64) -> bool
        ensures { ChangesId id self.old self.new result }
    {
        self.flights.outdate(id);
        self.flights.begin_change(id)
    }

    /// Ends a change: whether there was one.
    pub fn end_change(&mut self, id: u64) -> bool
        ensures ends { EndsChange id self.old.underway self.new.underway result }
        ensures rest { self.new ≡ record self.old { underway = self.new.underway } }
    {
        self.flights.end_change(id)
    }

    /// The flights that are under way end with the store. What values are left stays in the map.
    pub fn close(self) -> Vec<Flight>
        ensures { result.items ≡ self.underway.flights }
    {
        let Store {
            writer: _,
            asker: _,
            flights,
            limit: _,
        } = self;
        flights.into_left()
    }

    /// The same once all the readers that were handed out are back, so that two are out, the store's own and
    /// its writer's: the values that are left come out of the rest, by the map's `next_of`.
    pub fn leave(self, map: &IdMap, mut out: ReadersOut) -> (Vec<Flight>, Rest)
        requires own { (self.keeper.table ≡ map.now) × (out.table ≡ map.now.map) }
        requires all { out.count ≡ 2 }
        ensures flights { let (flights, _) = result in flights.items ≡ self.underway.flights }
        ensures own { let (_, rest) = result in rest.writer.table ≡ map.now.map }
        ensures left { let (_, rest) = result in TakenApart self.keeper.writer rest }
    {
        let Store {
            writer,
            asker,
            flights,
            limit: _,
        } = self;
        map.take_back(&mut out, asker);
        (flights.into_left(), map.leave(writer, out))
    }
}
