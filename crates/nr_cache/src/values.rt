//! How values come into a store, and out of it.
ghost use Rattle.std.specs.Prelude.{◌≡◌, ◌≤◌, ◌<◌, ◌+◌, ◌↔◌, ◌⊎◌, ◌∷◌, [], true, Some, IfNone, IfSome, IsTrue};
ghost use Rattle.nr_ids.specs.Events.{IsAbsent};
ghost use Rattle.nr_idmap.specs.Keepers.{id_rows, id_table_of, name_at};
ghost use Rattle.nr_idmap.specs.IdWrites.{FillsAndGives};
ghost use Rattle.nr_cache.specs.Flights.{is_changing};
ghost use Rattle.nr_cache.specs.Places.{AdmitsOrNot, ClaimsOr, Enters, OwesNone, OwesOnly, ReplacesAt};
ghost use Rattle.nr_cache.specs.Stores.{HoldsOrNot};
ghost use Rattle.nr_cache.specs.Values.{BringsValues, HasSlots, IsWithin, values_in};
ghost use Rattle.nr_cache.specs.Weights.{Lightens, OnlyValuesWeigh, stock_of};

use crate::evictions::{let_go, make_room};
use crate::flights::{Fate, Flights};
use crate::limits::Limit;
use crate::store::{Landed, Store};
use crate::weights::Weights;
use nr_idmap::{
    IdFault, IdMap, IdReader, IdWriter, Reaped, Reclaimed, Refused, Requested, Unfilled, Upquery,
    laws,
};
use nr_model::{Row, RowRoom};

impl Store {
    ghost use Rattle.nr_cache.specs.Stores.{Invalidates, Lands, Puts, Reaps};

    /// Ends the flight of that number by its value, with a stamp above 0. It is held unless its id was
    /// invalidated, put or changed since the flight began, or was being changed then, or it is heavier than all may be.
    /// Makes room itself: of the next eight ways that the store comes to, one with a stamp below the bound goes first.
    pub fn land<R: RowRoom>(
        &mut self,
        map: &IdMap,
        number: u64,
        stamp: u64,
        value: u64,
        weight: u32,
        bound: u64,
        had: &mut R,
    ) -> Landed
        requires own { self.old.keeper.table ≡ map.now }
        requires stamp { 0 < stamp }
        ensures own { self.new.keeper.table ≡ map.now }
        ensures lands { Lands R.shows number stamp value weight bound self.old had.old self.new had.new result }
    {
        let Some(flight) = self.flights.end(number) else {
            return Landed::Own;
        };
        match flight.fate {
            Fate::Hold => {}
            Fate::Outdated => return Landed::Own,
        }
        if self.limit.weights.is_too_heavy(weight) {
            return Landed::Own;
        }
        let row = Row { a: stamp, b: value };
        let asker = &mut self.asker;
        put_value(
            map,
            &mut self.writer,
            asker,
            &mut self.limit,
            flight.id,
            row,
            weight,
            bound,
            had,
        )
    }

    /// Puts a value, with a stamp above 0, in place of what the id has; its flight is outdated. While the id
    /// is being changed, or where it is heavier than all may be, the value is the caller's own, and the id has none.
    /// Makes room itself.
    pub fn put<R: RowRoom>(
        &mut self,
        map: &IdMap,
        id: u64,
        stamp: u64,
        value: u64,
        weight: u32,
        bound: u64,
        had: &mut R,
    ) -> Landed
        requires own { self.old.keeper.table ≡ map.now }
        requires id { 0 < id }
        requires stamp { 0 < stamp }
        ensures own { self.new.keeper.table ≡ map.now }
        ensures puts { Puts R.shows id stamp value weight bound self.old had.old self.new had.new result }
    {
        self.flights.outdate(id);
        if is_own(&self.flights, &self.limit.weights, id, weight) {
            let_go(map, &mut self.writer, &mut self.limit.weights, id);
            return Landed::Own;
        }
        let row = Row { a: stamp, b: value };
        let asker = &mut self.asker;
        put_value(
            map,
            &mut self.writer,
            asker,
            &mut self.limit,
            id,
            row,
            weight,
            bound,
            had,
        )
    }

    /// Takes an id's value, and outdates its flight: whether there was a value.
    pub fn invalidate(&mut self, map: &IdMap, id: u64) -> bool
        requires own { self.old.keeper.table ≡ map.now }
        requires id { 0 < id }
        ensures own { self.new.keeper.table ≡ map.now }
        ensures invalidates { Invalidates id self.old self.new result }
    {
        self.flights.outdate(id);
        let_go(map, &mut self.writer, &mut self.limit.weights, id)
    }

    /// Gives out a value that nobody can see any more, where no reader holds it.
    pub fn reap<R: RowRoom>(&mut self, map: &IdMap, had: &mut R) -> Reaped
        requires own { self.old.keeper.table ≡ map.now }
        ensures own { self.new.keeper.table ≡ map.now }
        ensures reaps { Reaps R.shows self.old had.old self.new had.new result }
    {
        map.reap(&mut self.writer, had)
    }
}

// Whether a value of that weight isn't held, since its id is being changed or it is heavier than all may be.
fn is_own(flights: &Flights, weights: &Weights, id: u64, weight: u32) -> bool
    ensures { IsTrue result ↔ (is_changing id flights.now ≡ true) ⊎ (weights.now.most < weight) }
{
    flights.is_changing(id) || weights.is_too_heavy(weight)
}

// Puts a row in place of an id's, or gives the id a way and fills it.
fn put_value<R: RowRoom>(
    map: &IdMap,
    writer: &mut IdWriter,
    asker: &mut IdReader,
    limit: &mut Limit,
    id: u64,
    row: Row,
    weight: u32,
    bound: u64,
    had: &mut R,
) -> Landed
    requires own { (writer.old.table ≡ map.now) × (id_table_of asker.old ≡ map.now) }
    requires owes { OwesNone writer.old }
    requires values { BringsValues writer.old }
    requires slots { HasSlots limit.old.capacity map.now.map }
    requires rows { 0 < id_rows map.now }
    requires id { 0 < id }
    requires stamp { 0 < row.a }
    requires some { 0 < limit.old.capacity }
    requires within { IsWithin limit.old.capacity writer.old }
    requires only { OnlyValuesWeigh limit.old.weights writer.old }
    requires hand { limit.old.hand < map.now.map.shape.keys }
    requires light { weight ≤ limit.old.weights.most }
    ensures own { (writer.new.table ≡ map.now) × (id_table_of asker.new ≡ map.now) }
    ensures owes { OwesNone writer.new }
    ensures values { BringsValues writer.new }
    ensures within { IsWithin limit.old.capacity writer.new }
    ensures only { OnlyValuesWeigh limit.new.weights writer.new }
    ensures hand { limit.new.hand < map.now.map.shape.keys }
    ensures same { limit.new.capacity ≡ limit.old.capacity }
    ensures puts { HoldsOrNot R.shows limit.old.capacity bound weight id row (stock_of writer.old limit.old.weights limit.old.hand) asker.old had.old (stock_of writer.new limit.new.weights limit.new.hand) asker.new had.new result }
{
    writer.is_tied();
    let found = map.way_of(writer, id);
    writer.is_tied();
    match found {
        Some(way) => Landed::Held(replace(map, writer, limit, way, id, row, weight, bound, had)),
        None => enter(map, writer, asker, limit, id, row, weight, bound, had),
    }
}

// Puts a row in place of that of an id that has a way.
fn replace<R: RowRoom>(
    map: &IdMap,
    writer: &mut IdWriter,
    limit: &mut Limit,
    way: u32,
    id: u64,
    row: Row,
    weight: u32,
    bound: u64,
    had: &mut R,
) -> Reclaimed
    requires own { writer.old.table ≡ map.now }
    requires owes { OwesNone writer.old }
    requires values { BringsValues writer.old }
    requires slots { HasSlots limit.old.capacity map.now.map }
    requires rows { 0 < id_rows map.now }
    requires named { (0 < id) × (name_at writer.old way ≡ id) }
    requires stamp { 0 < row.a }
    requires within { IsWithin limit.old.capacity writer.old }
    requires only { OnlyValuesWeigh limit.old.weights writer.old }
    requires hand { limit.old.hand < map.now.map.shape.keys }
    requires light { weight ≤ limit.old.weights.most }
    ensures own { writer.new.table ≡ map.now }
    ensures owes { OwesNone writer.new }
    ensures values { BringsValues writer.new }
    ensures within { IsWithin limit.old.capacity writer.new }
    ensures only { OnlyValuesWeigh limit.new.weights writer.new }
    ensures hand { limit.new.hand < map.now.map.shape.keys }
    ensures same { limit.new.capacity ≡ limit.old.capacity }
    ensures replaces { ReplacesAt R.shows bound weight way id row (stock_of writer.old limit.old.weights limit.old.hand) had.old (stock_of writer.new limit.new.weights limit.new.hand) had.new result }
{
    nr_map::laws::no_slot_is_rare();
    laws::named_is_owed_or_resident();
    writer.is_tied();
    limit.lighten(map, writer, way, weight, bound);
    writer.is_tied();
    match map.replace_reclaiming(writer, id, &[row], had) {
        Ok(given) => {
            limit.weights.set(way, weight);
            given
        }
        // It has the way still.
        Err(IdFault::Absent) => unreachable!(),
        // A way with a name has a set, and there is a slot for each value, each reader and one more.
        Err(IdFault::Refused(_fault)) => {
            writer.is_tied();
            unreachable!()
        }
    }
}

// Gives an id that has none a way, and fills it.
fn enter<R: RowRoom>(
    map: &IdMap,
    writer: &mut IdWriter,
    asker: &mut IdReader,
    limit: &mut Limit,
    id: u64,
    row: Row,
    weight: u32,
    bound: u64,
    had: &mut R,
) -> Landed
    requires own { (writer.old.table ≡ map.now) × (id_table_of asker.old ≡ map.now) }
    requires owes { OwesNone writer.old }
    requires values { BringsValues writer.old }
    requires slots { HasSlots limit.old.capacity map.now.map }
    requires rows { 0 < id_rows map.now }
    requires id { 0 < id }
    requires absent { IsAbsent writer.old.clerk.seen id }
    requires stamp { 0 < row.a }
    requires some { 0 < limit.old.capacity }
    requires within { IsWithin limit.old.capacity writer.old }
    requires only { OnlyValuesWeigh limit.old.weights writer.old }
    requires hand { limit.old.hand < map.now.map.shape.keys }
    requires light { weight ≤ limit.old.weights.most }
    ensures own { (writer.new.table ≡ map.now) × (id_table_of asker.new ≡ map.now) }
    ensures owes { OwesNone writer.new }
    ensures values { BringsValues writer.new }
    ensures within { IsWithin limit.old.capacity writer.new }
    ensures only { OnlyValuesWeigh limit.new.weights writer.new }
    ensures hand { limit.new.hand < map.now.map.shape.keys }
    ensures same { limit.new.capacity ≡ limit.old.capacity }
    ensures enters { Enters R.shows limit.old.capacity bound weight id row (stock_of writer.old limit.old.weights limit.old.hand) asker.old had.old (stock_of writer.new limit.new.weights limit.new.hand) asker.new had.new result }
{
    laws::unnamed_is_absent();
    writer.is_tied();
    if !claim(map, asker, id) {
        return Landed::Own;
    }
    let admitted = admit(map, writer, &mut limit.weights, id);
    writer.is_tied();
    let Some(upquery) = admitted else {
        return Landed::Own;
    };
    limit.keep(map, writer, &upquery, weight, bound);
    writer.is_tied();
    let way = upquery.way();
    let given = fill(map, writer, upquery, row, had);
    limit.weights.set(way, weight);
    Landed::Held(given)
}

// Claims an id's group: whether the claim was granted.
fn claim(map: &IdMap, asker: &mut IdReader, id: u64) -> bool
    requires own { id_table_of asker.old ≡ map.now }
    requires id { 0 < id }
    ensures own { id_table_of asker.new ≡ map.now }
    ensures claims { ClaimsOr id asker.old asker.new result }
{
    match map.request(asker, id) {
        Requested::Granted(claim) => {
            claim.into_id();
            true
        }
        Requested::Named(_) | Requested::Busy | Requested::Outrun | Requested::Worn => false,
    }
}

// Gives an id that has none a way, for which the value of another of its group goes where each is taken.
fn admit(map: &IdMap, writer: &mut IdWriter, weights: &mut Weights, id: u64) -> Option<Upquery>
    requires own { writer.old.table ≡ map.now }
    requires owes { OwesNone writer.old }
    requires values { BringsValues writer.old }
    requires only { OnlyValuesWeigh weights.old writer.old }
    requires id { 0 < id }
    requires absent { IsAbsent writer.old.clerk.seen id }
    ensures own { writer.new.table ≡ map.now }
    ensures values { BringsValues writer.new }
    ensures only { OnlyValuesWeigh weights.new writer.new }
    ensures lightens { Lightens writer.old weights.old writer.new weights.new }
    ensures admits { AdmitsOrNot id writer.old writer.new result }
    ensures upquery { IfSome result (λ upquery. (upquery.table ≡ map.now) × OwesOnly upquery.owed writer.new) }
    ensures none { IfNone result (OwesNone writer.new × IsAbsent writer.new.clerk.seen id) }
{
    writer.is_tied();
    match map.admit(writer, id) {
        Ok(upquery) => return Some(upquery),
        Err(Refused::NoClaim) => return None,
        Err(Refused::Full) => {}
        // It has no way.
        Err(Refused::Named(_way)) => unreachable!(),
    }
    make_room(map, writer, weights, id);
    writer.is_tied();
    match map.admit(writer, id) {
        Ok(upquery) => Some(upquery),
        Err(Refused::NoClaim) => None,
        // There is room now, and the id has no way still.
        Err(Refused::Full) => unreachable!(),
        Err(Refused::Named(_way)) => unreachable!(),
    }
}

// Fills an upquery that was just opened.
fn fill<R: RowRoom>(
    map: &IdMap,
    writer: &mut IdWriter,
    upquery: Upquery,
    row: Row,
    had: &mut R,
) -> Reclaimed
    requires own { (writer.old.table ≡ map.now) × (upquery.table ≡ map.now) }
    requires owes { OwesOnly upquery.owed writer.old }
    requires values { BringsValues writer.old }
    requires slots { HasSlots (values_in writer.old) map.now.map }
    requires rows { 0 < id_rows map.now }
    requires stamp { 0 < row.a }
    ensures own { writer.new.table ≡ map.now }
    ensures owes { OwesNone writer.new }
    ensures values { BringsValues writer.new }
    ensures asker { writer.new.asker ≡ writer.old.asker }
    ensures more { values_in writer.new ≤ values_in writer.old + 1 }
    ensures fills { FillsAndGives R.shows upquery.owed (row ∷ []) writer.old had.old writer.new had.new result }
{
    nr_map::laws::no_slot_is_rare();
    writer.is_tied();
    match map.fill_reclaiming(writer, upquery, &[row], had) {
        Ok(given) => given,
        // It was opened a moment ago.
        Err(Unfilled::Closed) => unreachable!(),
        // There is a slot for each value, each reader and one more.
        Err(Unfilled::NoSlot(_upquery, _counts)) => unreachable!(),
    }
}
