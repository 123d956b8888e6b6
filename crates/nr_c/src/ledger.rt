//! The open upqueries of a map over ids, of which C has the numbers.
ghost use Rattle.std.specs.Prelude.{◌≡◌, ◌↔◌, IfOk, IsTrue, MatchOption, None, replicate};
ghost use Rattle.std.specs.Bool.{OnFalse, OnTrue};
ghost use Rattle.nr_c.specs.Ledgers.{AreAllAsked, GivesUp, IsAsked, IsAt, IsIn, IsInEither, IsKept, KeepsNone, Tells, keeps, keeps_new, next_count, no_entries, owed_of};

use crate::kept_upquery::{KeptUpquery, NrUpquery};
use nr_idmap::Upquery;
use std::alloc::{AllocError, Global};
use std::marker::Model;

// How many ways a group has.
const WAYS: usize = 8;

/// Each open upquery at its way's place, how many admissions have opened one, and of which map they are.
#[derive(Drop)]
pub struct Ledger {
    map: u64,
    count: u64,
    places: Vec<Option<KeptUpquery>, Global>,
}

impl Model for Ledger {
    ghost use Rattle.nr_c.specs.Ledgers.{Entries};

    ghost Value = { Entries };

    ghost view = { λ ledger. record { map = ledger.map; count = ledger.count; places = ledger.places.items } };
}

impl Ledger {
    /// A place for each way of the map that has this number, and no upquery.
    pub fn empty(alloc: Global, map: u64, ways: u32) -> Result<Ledger, AllocError>
        ensures { IfOk result (λ ledger. ledger ≡ no_entries map ways) }
    {
        let mut places = Vec::with_capacity(alloc, ways as usize)?;
        for _way in 0..ways {
            places.push_reserved(None);
        }
        Ok(Ledger {
            map,
            count: 0,
            places,
        })
    }

    /// Whether an upquery with these numbers was opened by an admission of this map.
    pub fn is_own(&self, upquery: &NrUpquery) -> bool
        ensures own { OnTrue result (upquery.now.map ≡ self.now.map) }
        ensures other { OnFalse result (upquery.now.map ≡ self.now.map → ⊥) }
    {
        upquery.map == self.map
    }

    /// Counts an admission, keeps the upquery that it opened, and tells its numbers.
    pub fn keep_new(&mut self, upquery: Upquery) -> NrUpquery
        ensures numbers { owed_of result ≡ upquery.owed }
        ensures count { result.count ≡ next_count self.old }
        ensures map { result.map ≡ self.old.map }
        ensures keeps { self.new ≡ keeps_new upquery self.old }
    {
        let count = self.count.saturating_add(1);
        self.count = count;
        let told = NrUpquery::of(self.map, count, &upquery);
        self.keep(count, upquery);
        told
    }

    /// Keeps an upquery, which that admission opened, at its way's place, where there is one.
    pub fn keep(&mut self, count: u64, upquery: Upquery)
        ensures { self.new ≡ keeps count upquery self.old }
    {
        let way = upquery.way() as usize;
        if way < self.places.len() {
            self.places[way] = Some(KeptUpquery::of(count, upquery));
        } else {
            drop(KeptUpquery::of(count, upquery));
        }
    }

    /// Gives the upquery up that has these numbers, if it is kept.
    pub fn give_up(&mut self, wanted: NrUpquery) -> Option<Upquery>
        ensures { MatchOption result (KeepsNone wanted self.old self.new) (λ upquery. GivesUp wanted upquery self.old self.new) }
    {
        let way = wanted.way as usize;
        if !self.keeps(wanted) {
            return None;
        }
        match self.places[way].take() {
            Some(kept) => Some(kept.into_upquery()),
            None => unreachable!(),
        }
    }

    /// The numbers of an id's open upquery, if it is kept at a way of one of these groups.
    pub fn find(&self, first: u32, second: u32, id: u64) -> Option<NrUpquery>
        ensures { Tells (IsInEither first second id) self.now result }
    {
        match self.find_in(first, id) {
            Some(upquery) => Some(upquery),
            None => self.find_in(second, id),
        }
    }

    /// Whether each way of this group has an open upquery.
    pub fn are_all_asked(&self, group: u32) -> bool
        ensures all { OnTrue result (AreAllAsked group self.now) }
        ensures some { OnFalse result (AreAllAsked group self.now → ⊥) }
    {
        let first = WAYS * group as usize;
        for way in first..first + WAYS {
            if !self.is_asked(way) {
                return false;
            }
        }
        true
    }

    // Whether this way has an open upquery.
    fn is_asked(&self, way: usize) -> bool
        ensures asked { OnTrue result (IsAsked way self.now) }
        ensures free { OnFalse result (IsAsked way self.now → ⊥) }
    {
        match self.places.get(way) {
            Some(Some(_kept)) => true,
            Some(None) | None => false,
        }
    }

    // The numbers of the id's upquery, if it is kept at a way of this group.
    fn find_in(&self, group: u32, id: u64) -> Option<NrUpquery>
        ensures { Tells (IsIn group id) self.now result }
    {
        let first = WAYS * group as usize;
        for way in first..first + WAYS {
            if let Some(upquery) = self.find_at(way, id) {
                return Some(upquery);
            }
        }
        None
    }

    // The numbers of the id's upquery, if it is kept at this way.
    fn find_at(&self, way: usize, id: u64) -> Option<NrUpquery>
        ensures { Tells (IsAt way id) self.now result }
    {
        let upquery = match self.places.get(way) {
            Some(Some(kept)) => kept.numbers(self.map),
            Some(None) | None => return None,
        };
        if upquery.way as usize == way && upquery.id == id {
            Some(upquery)
        } else {
            None
        }
    }

    // Whether the upquery with these numbers is kept.
    fn keeps(&self, wanted: NrUpquery) -> bool
        ensures { IsTrue result ↔ IsKept wanted self.now }
    {
        match self.places.get(wanted.way as usize) {
            Some(Some(kept)) => kept.has(wanted),
            Some(None) | None => false,
        }
    }
}
