//! The flights, which are the loads that are under way, and the changes of the base that are.
ghost use Rattle.std.specs.Prelude.{◌≡◌, ◌<◌, IfOk, IfSome, is_some, length, position};
ghost use Rattle.nr_cache.specs.Flights as spec;
ghost use Rattle.nr_cache.specs.Flights.{has_number, is_id, is_of};

use std::alloc::{AllocError, Global};
use std::marker::Model;

/// What becomes of the value that a flight brings.
#[derive(Clone, Copy, PartialEq, Eq, Debug)]
pub enum Fate {
    /// It is held.
    Hold,
    /// Its id was invalidated, put or changed since the flight began, or was being changed then.
    Outdated,
}

/// One load of one id.
#[derive(Clone, Copy, Debug)]
pub struct Flight {
    pub id: u64,
    /// Which of all flights it is, from 1 on.
    pub number: u64,
    /// The number that its caller began it with, for those that wait for it.
    pub mark: u64,
    pub fate: Fate,
}

/// The flights, one of an id at most, and the ids that are being changed, each as often as it is. Both have
/// room for so many and take no memory.
#[derive(Drop)]
pub(crate) struct Flights {
    changing: Vec<u64>,
    begun: u64,
    under_way: Vec<Flight>,
}

impl Model for Flights {
    ghost use Rattle.std.specs.Prelude.{◌<◌, All, vec_capacity};
    ghost use Rattle.nr_cache.specs.Flights.{Underway};

    ghost Value = { Underway };

    ghost view = { λ flights. record { flights = flights.under_way.items; begun = flights.begun; changing = flights.changing.items; room = vec_capacity flights.under_way; changes = vec_capacity flights.changing } };

    ghost invariant = { λ flights. All (λ flight. 0 < flight.id) flights.under_way.items };
}

impl Flights {
    ghost use Rattle.nr_cache.specs.Flights.{Begins, BeginsChange, Ends, EndsChange, EndsOldest, FindsFlight, IsFree, Outdates, OutdatesAll, none_under_way};

    /// Nothing is under way, and there is room for so many flights and changes.
    pub fn open(alloc: Global, flights: usize, changes: usize) -> Result<Flights, AllocError>
        ensures { IfOk result (λ made. made ≡ none_under_way flights changes) }
    {
        Ok(Flights {
            changing: Vec::with_capacity(alloc, changes)?,
            begun: 0,
            under_way: Vec::with_capacity(alloc, flights)?,
        })
    }

    /// The flight of an id.
    pub fn of(&self, id: u64) -> Option<Flight>
        ensures { FindsFlight id self.now result }
    {
        let place = place_of(&self.under_way, id)?;
        Some(self.under_way[place])
    }

    /// Begins a flight of an id that has none. None where there is no room for it, and where 2^64 - 1
    /// flights have begun.
    pub fn begin(&mut self, id: u64, mark: u64) -> Option<Flight>
        requires id { 0 < id }
        requires free { IsFree id self.old }
        ensures { Begins id mark self.old self.new result }
    {
        if self.under_way.len() >= self.under_way.capacity() || self.begun == u64::MAX {
            return None;
        }
        self.begun += 1;
        let flight = Flight {
            id,
            number: self.begun,
            mark,
            fate: fate_of(is_among(&self.changing, id)),
        };
        self.under_way.push_reserved(flight);
        Some(flight)
    }

    /// Ends the flight of that number, whose value is here or will never be.
    pub fn end(&mut self, number: u64) -> Option<Flight>
        ensures ends { Ends number self.old self.new result }
        ensures id { IfSome result (λ flight. 0 < flight.id) }
    {
        let place = place_of_number(&self.under_way, number)?;
        Some(self.under_way.remove(place))
    }

    /// Ends the flight that began first of those under way.
    pub fn end_oldest(&mut self) -> Option<Flight>
        ensures { EndsOldest self.old self.new result }
    {
        if self.under_way.is_empty() {
            return None;
        }
        Some(self.under_way.remove(0))
    }

    /// The value of an id's flight will not be held: the flight as it was.
    pub fn outdate(&mut self, id: u64) -> Option<Flight>
        ensures { Outdates id self.old self.new result }
    {
        let place = place_of(&self.under_way, id)?;
        let flight = self.under_way[place];
        self.under_way[place] = outdated(flight);
        Some(flight)
    }

    /// No flight's value will be held.
    pub fn outdate_all(&mut self)
        ensures { OutdatesAll self.old self.new }
    {
        for place in 0..self.under_way.len() {
            self.under_way[place] = outdated(self.under_way[place]);
        }
    }

    /// Begins a change of an id: until it ends the id's flights are outdated as they begin. Whether there
    /// was room for it.
    pub fn begin_change(&mut self, id: u64) -> bool
        ensures { BeginsChange id self.old self.new result }
    {
        if self.changing.len() >= self.changing.capacity() {
            return false;
        }
        self.changing.push_reserved(id);
        true
    }

    /// Ends one: whether there was one.
    pub fn end_change(&mut self, id: u64) -> bool
        ensures { EndsChange id self.old self.new result }
    {
        match place_among(&self.changing, id) {
            Some(place) => {
                self.changing.remove(place);
                true
            }
            None => false,
        }
    }

    /// Whether an id is being changed.
    pub fn is_changing(&self, id: u64) -> bool
        ensures { result ≡ spec.is_changing id self.now }
    {
        is_among(&self.changing, id)
    }

    /// How many are under way.
    pub fn len(&self) -> usize
        ensures { result ≡ length self.now.flights }
    {
        self.under_way.len()
    }

    /// How many changes are.
    pub fn changes(&self) -> usize
        ensures { result ≡ length self.now.changing }
    {
        self.changing.len()
    }

    /// The flights that are left.
    pub fn into_left(self) -> Vec<Flight>
        ensures { result.items ≡ self.flights }
    {
        self.under_way
    }
}

fn outdated(flight: Flight) -> Flight
    ensures { result ≡ spec.outdated flight }
{
    Flight {
        fate: Fate::Outdated,
        ..flight
    }
}

fn fate_of(is_changing: bool) -> Fate
    ensures { result ≡ spec.fate_of is_changing }
{
    if is_changing {
        Fate::Outdated
    } else {
        Fate::Hold
    }
}

fn place_of(flights: &[Flight], id: u64) -> Option<usize>
    ensures { result ≡ position (is_of id) flights.now }
{
    flights.iter().position(|flight| flight.id == id)
}

fn place_of_number(flights: &[Flight], number: u64) -> Option<usize>
    ensures { result ≡ position (has_number number) flights.now }
{
    flights.iter().position(|flight| flight.number == number)
}

fn place_among(ids: &[u64], id: u64) -> Option<usize>
    ensures { result ≡ position (is_id id) ids.now }
{
    ids.iter().position(|other| *other == id)
}

fn is_among(ids: &[u64], id: u64) -> bool
    ensures { result ≡ is_some (position (is_id id) ids.now) }
{
    place_among(ids, id).is_some()
}
