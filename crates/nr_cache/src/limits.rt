//! As many values as there may be, and as heavy ones: what makes room for one more.
ghost use Rattle.std.specs.Prelude.{◌≡◌, ◌≢◌, ◌<◌, ◌≤◌, ℕ, true, IfNone, IfSome};
ghost use Rattle.nr_idmap.specs.IdChoices.{StaysButClerk};
ghost use Rattle.nr_idmap.specs.Keepers.{OwesSame, name_at};
ghost use Rattle.nr_cache.specs.Places.{HasNoOther, HoldsNoOther, IsOther, KeepsWithin, LetsOneGo, LightensFor, OwesNoneBut, OwesOnly, TakesValue};
ghost use Rattle.nr_cache.specs.Stamps.{GoesNext, LooksAround, way_after};
ghost use Rattle.nr_cache.specs.Values.{BringsValues, IsWithin, values_in};
ghost use Rattle.nr_cache.specs.Weights.{Fits, Lightens, OnlyValuesWeigh, value_at};

use crate::choice::{Choice, Need, place_after};
use crate::counts::count_values;
use crate::stamps::stale_way;
use crate::weights::Weights;
use nr_idmap::{Evict, IdMap, IdWriter, Upquery, laws};
use nr_model::SortedRows;

/// By how many ways the hand goes on.
const STRIDE: u32 = 8;

/// How many values there may be, what they weigh, and whose goes next.
#[derive(Drop)]
pub(crate) struct Limit {
    /// The way at which the next look for a stale value begins.
    pub hand: u32,
    pub capacity: u32,
    pub choice: Choice,
    pub weights: Weights,
    /// The rows that a look found last.
    pub found: SortedRows,
}

/// An id with the way that it has.
#[derive(Clone, Copy)]
pub(crate) struct Other {
    pub way: u32,
    pub id: u64,
}

impl Limit {
    ghost use Rattle.nr_cache.specs.Weights.{stock_of};

    /// Lets the values of others than the upquery's id go, where there are as many as may be, and as long as a value
    /// of that weight is too heavy beside them: first those with a stamp below the bound, if one is met.
    pub fn keep(
        &mut self,
        map: &IdMap,
        writer: &mut IdWriter,
        upquery: &Upquery,
        weight: u32,
        bound: u64,
    )
        requires own { writer.old.table ≡ map.now }
        requires owes { OwesOnly upquery.now.owed writer.old }
        requires values { BringsValues writer.old }
        requires some { 0 < self.old.capacity }
        requires within { IsWithin self.old.capacity writer.old }
        requires only { OnlyValuesWeigh self.old.weights writer.old }
        requires hand { self.old.hand < map.now.map.shape.keys }
        requires light { weight ≤ self.old.weights.most }
        ensures own { writer.new.table ≡ map.now }
        ensures owes { OwesOnly upquery.now.owed writer.new }
        ensures values { BringsValues writer.new }
        ensures only { OnlyValuesWeigh self.new.weights writer.new }
        ensures hand { self.new.hand < map.now.map.shape.keys }
        ensures keeps { KeepsWithin self.old.capacity bound upquery.now.owed.way weight (stock_of writer.old self.old.weights self.old.hand) (stock_of writer.new self.new.weights self.new.hand) }
        ensures room { values_in writer.new < self.old.capacity }
        ensures fits { Fits upquery.now.owed.way weight self.new.weights }
        ensures same { self.new.capacity ≡ self.old.capacity }
    {
        let way = upquery.way();
        let count = count_values(map, writer);
        writer.is_tied();
        let had_room = self.has_room(count, way, weight);
        if count >= self.capacity {
            self.let_one_go(map, writer, way, Need::Place, bound);
        }
        self.lighten(map, writer, way, weight, bound);
        self.choice.enter(way, upquery.id(), weight, had_room);
    }

    // Whether none has to go for a value of that weight, in a store of so many.
    fn has_room(&self, count: u32, way: u32, weight: u32) -> bool {
        count < self.capacity && self.weights.fits(way, weight)
    }

    /// Lets the values of others go until one of that weight fits in the way, in place of what the way has.
    pub fn lighten(&mut self, map: &IdMap, writer: &mut IdWriter, way: u32, weight: u32, bound: u64)
        requires own { writer.old.table ≡ map.now }
        requires owes { OwesNoneBut way writer.old }
        requires values { BringsValues writer.old }
        requires only { OnlyValuesWeigh self.old.weights writer.old }
        requires hand { self.old.hand < map.now.map.shape.keys }
        requires light { weight ≤ self.old.weights.most }
        ensures own { writer.new.table ≡ map.now }
        ensures owes { OwesSame writer.old writer.new }
        ensures values { BringsValues writer.new }
        ensures only { OnlyValuesWeigh self.new.weights writer.new }
        ensures hand { self.new.hand < map.now.map.shape.keys }
        ensures lightens { LightensFor bound way weight (stock_of writer.old self.old.weights self.old.hand) (stock_of writer.new self.new.weights self.new.hand) }
        ensures fits { Fits way weight self.new.weights }
        ensures mine { value_at writer.new way ≡ value_at writer.old way }
        ensures fewer { values_in writer.new ≤ values_in writer.old }
        ensures asker { writer.new.asker ≡ writer.old.asker }
        ensures same { self.new.capacity ≡ self.old.capacity }
    {
        'too_heavy: while !self.weights.fits(way, weight) {
            self.let_one_go(map, writer, way, Need::Weight, bound);
        }
    }

    // Takes the value of one that hasn't that way.
    fn let_one_go(&mut self, map: &IdMap, writer: &mut IdWriter, way: u32, need: Need, bound: u64)
        requires own { writer.old.table ≡ map.now }
        requires owes { OwesNoneBut way writer.old }
        requires values { BringsValues writer.old }
        requires only { OnlyValuesWeigh self.old.weights writer.old }
        requires hand { self.old.hand < map.now.map.shape.keys }
        requires some { HoldsNoOther way writer.old → ⊥ }
        ensures own { writer.new.table ≡ map.now }
        ensures owes { OwesSame writer.old writer.new }
        ensures values { BringsValues writer.new }
        ensures only { OnlyValuesWeigh self.new.weights writer.new }
        ensures hand { self.new.hand < map.now.map.shape.keys }
        ensures goes { LetsOneGo bound way (stock_of writer.old self.old.weights self.old.hand) (stock_of writer.new self.new.weights self.new.hand) }
        ensures mine { value_at writer.new way ≡ value_at writer.old way }
        ensures fewer { values_in writer.new < values_in writer.old }
        ensures asker { writer.new.asker ≡ writer.old.asker }
        ensures same { self.new.capacity ≡ self.old.capacity }
    {
        writer.is_tied();
        let victim = self.first_to_go(map, writer, way, need, bound);
        writer.is_tied();
        let Some(victim) = victim else {
            // Another way has a value.
            unreachable!()
        };
        take_other(map, writer, &mut self.weights, way, victim);
    }

    /// One with a stale value, if one is met, and else any, but none that has this way.
    pub fn first_to_go(
        &mut self,
        map: &IdMap,
        writer: &mut IdWriter,
        newcomer: u32,
        need: Need,
        bound: u64,
    ) -> Option<Other>
        requires own { writer.old.table ≡ map.now }
        requires hand { self.old.hand < map.now.map.shape.keys }
        ensures own { writer.new.table ≡ map.now }
        ensures hand { self.new.hand < map.now.map.shape.keys }
        ensures looks { LooksAround writer.old writer.new }
        ensures some { IfSome result (λ other. IsOther newcomer other.way other.id writer.new × GoesNext bound newcomer self.old.hand self.new.hand other.way writer.new) }
        ensures none { IfNone result (HasNoOther newcomer writer.new) }
        ensures past { IfNone result (self.new.hand ≡ way_after self.old.hand 8 map.now.map.shape.keys) }
        ensures weights { self.new.weights ≡ self.old.weights }
        ensures same { self.new.capacity ≡ self.old.capacity }
    {
        let stale = stale_way(map, writer, &mut self.found, self.hand, newcomer, bound);
        writer.is_tied();
        match stale {
            Some(way) => other_at(map, writer, way, newcomer),
            None => {
                self.hand = place_after(self.hand, STRIDE, map.ways());
                let choice = &mut self.choice;
                victim(map, writer, choice, &self.weights, need, newcomer)
            }
        }
    }
}

// The id that has the way which the choice chose; where that may not go, any that has another way than this one.
fn victim(
    map: &IdMap,
    writer: &mut IdWriter,
    choice: &mut Choice,
    weights: &Weights,
    need: Need,
    newcomer: u32,
) -> Option<Other>
    requires own { writer.old.table ≡ map.now }
    ensures own { writer.new.table ≡ map.now }
    ensures stays { StaysButClerk writer.old writer.new }
    ensures some { IfSome result (λ other. IsOther newcomer other.way other.id writer.new) }
    ensures none { IfNone result (HasNoOther newcomer writer.new) }
{
    let way = choice.choose(map, writer, weights, need, newcomer);
    match other_at(map, writer, way, newcomer) {
        Some(other) => Some(other),
        None => any_other(map, writer, newcomer),
    }
}

// The first that has another way than this one.
fn any_other(map: &IdMap, writer: &mut IdWriter, newcomer: u32) -> Option<Other>
    requires own { writer.old.table ≡ map.now }
    ensures own { writer.new.table ≡ map.now }
    ensures stays { StaysButClerk writer.old writer.new }
    ensures some { IfSome result (λ other. IsOther newcomer other.way other.id writer.new) }
    ensures none { IfNone result (HasNoOther newcomer writer.new) }
{
    for way in 0..map.ways() {
        let other = other_at(map, writer, way, newcomer);
        if other.is_some() {
            return other;
        }
    }
    None
}

// Who has a way, if that is another than this one.
fn other_at(map: &IdMap, writer: &mut IdWriter, way: u32, newcomer: u32) -> Option<Other>
    requires own { writer.old.table ≡ map.now }
    ensures own { writer.new.table ≡ map.now }
    ensures stays { StaysButClerk writer.old writer.new }
    ensures names { (other : ℕ) → name_at writer.new other ≡ name_at writer.old other }
    ensures some { IfSome result (λ other. (other.way ≡ way) × IsOther newcomer other.way other.id writer.new) }
    ensures none { IfNone result (way < map.now.map.shape.keys → way ≢ newcomer → name_at writer.new way ≡ 0) }
{
    if way == newcomer || way >= map.ways() {
        return None;
    }
    writer.is_tied();
    let id = map.id_at(writer, way)?;
    Some(Other { way, id })
}

// Takes the value of one that has another way than this one, with its weight.
fn take_other(map: &IdMap, writer: &mut IdWriter, weights: &mut Weights, taken: u32, other: Other)
    requires own { writer.old.table ≡ map.now }
    requires owes { OwesNoneBut taken writer.old }
    requires values { BringsValues writer.old }
    requires other { IsOther taken other.way other.id writer.old }
    requires only { OnlyValuesWeigh weights.old writer.old }
    ensures own { writer.new.table ≡ map.now }
    ensures owes { OwesSame writer.old writer.new }
    ensures values { BringsValues writer.new }
    ensures takes { TakesValue other.id writer.old writer.new true }
    ensures lightens { Lightens writer.old weights.old writer.new weights.new }
    ensures only { OnlyValuesWeigh weights.new writer.new }
    ensures mine { value_at writer.new taken ≡ value_at writer.old taken }
    ensures fewer { values_in writer.new < values_in writer.old }
{
    laws::named_is_owed_or_resident();
    writer.is_tied();
    let answer = map.evict(writer, other.id);
    writer.is_tied();
    match answer {
        Evict::Evicted => weights.leave(other.way),
        // A way that has a name, and no upquery, has a value.
        Evict::Nothing => unreachable!(),
    }
}
