//! Whose value goes next. It is a choice alone: whatever way this names, the store looks whether its value may
//! go, and else takes another. So nothing rests on it but how often misses come.
//!
//! Who comes is an entrant. Where there are as many as may be, the oldest goes if it is known to have been asked for
//! but once. Else it stands against a resident. Residents stand in the order of their ways, and a turn goes round:
//! who was found since the turn came there last is passed and counts one more, and the first other one is the
//! entrant's match. The one with the greater count stays. Of the ids that went some are told, with their counts.
//!
//! Where room is made for weight, entrants go first, however many there are, so that those who come bear their own
//! weight. Where one wins, residents go on going for it until they weigh what it does, each that has the lesser count.
//!
//! Where those who went are asked for again, and those who stayed aren't found, the counts tell little. So that is
//! counted, and decides by how much residents lose who win (`Mood`).
ghost use Rattle.std.specs.Prelude.{◌≡◌, ◌<◌};
ghost use Rattle.nr_idmap.specs.IdChoices.{StaysButClerk};
ghost use Rattle.nr_cache.specs.Stamps.{way_after};

use crate::entrants::Entrants;
use crate::leavers::Leavers;
use crate::mood::{Doubt, Mood};
use crate::shape::StoreShape;
use crate::standing::{Stake, Standing, Standings, counted};
use crate::weights::Weights;
use nr_idmap::{IdMap, IdWriter};
use std::alloc::{AllocError, Global};

/// From which count on an entrant stands against a resident.
const ENOUGH: u8 = 2;

/// How many residents that were found a turn passes at most.
const PATIENCE: u32 = 8;

/// What a value goes for.
#[derive(Clone, Copy, PartialEq, Eq, Debug)]
pub(crate) enum Need {
    /// There are as many as may be.
    Place,
    /// One is too heavy beside the others.
    Weight,
}

#[derive(Drop)]
pub(crate) struct Choice {
    /// The way that comes next in the turn of the residents.
    turn: u32,
    entrants: Entrants,
    doubt: Doubt,
    /// The last who won, if those who went for it are lighter.
    winner: Option<Winner>,
    standings: Standings,
    leavers: Leavers,
}

/// Who may go: an id with its way and its count.
#[derive(Clone, Copy)]
struct Rival {
    way: u32,
    id: u64,
    count: u8,
}

/// Who stays, and how much is to go for it yet.
#[derive(Clone, Copy)]
struct Winner {
    way: u32,
    lacks: u32,
}

impl Choice {
    /// Takes all the memory that it has room in.
    pub fn open(alloc: Global, shape: &StoreShape) -> Result<Choice, AllocError> {
        let most = Mood::Moving.room(shape.capacity).saturating_add(2);
        Ok(Choice {
            turn: 0,
            entrants: Entrants::open(alloc, most)?,
            doubt: Doubt::new(shape.capacity, shape.weight),
            winner: None,
            standings: Standings::open(alloc, shape.groups.saturating_mul(8))?,
            leavers: Leavers::open(alloc, shape.groups.saturating_mul(2))?,
        })
    }

    /// An id has a way now, which it had not, and a value of that weight. If none had to go for it, it stays; but
    /// where values are weighed it waits, and those stay who came before, as long as more waits than may.
    pub fn enter(&mut self, way: u32, id: u64, weight: u32, had_room: bool) {
        let count = self.count_of(id);
        if had_room && !self.doubt.weighs() {
            return self.standings.set_resident(way, count, Stake::Nothing);
        }
        self.standings.set(way, Standing::Entrant { count });
        self.entrants.push(way, weight);
        if had_room {
            self.settle();
        } else if self.entrants.count() > self.doubt.room.saturating_add(1) {
            // They are too many, since the mood has changed.
            self.oldest_stays();
        }
    }

    // The count with which an id comes: one more than it went with, if that is known.
    fn count_of(&mut self, id: u64) -> u8 {
        match self.leavers.recall(id) {
            Some(leaver) => {
                self.doubt.misses(leaver.stake);
                counted(leaver.count)
            }
            None => 1,
        }
    }

    fn settle(&mut self) {
        for _ in 0..self.entrants.count() {
            if !self.doubt.is_exceeded(&self.entrants) {
                return;
            }
            self.oldest_stays();
        }
    }

    fn oldest_stays(&mut self) {
        if let Some(oldest) = self.entrants.pop() {
            self.standings.stay(oldest);
        }
    }

    /// The way of one whose value is to go, which isn't the newcomer's unless no other has a value. Takes up to 3
    /// steps of the directory for each entrant or resident that it comes to, and none for other ways. It comes to one
    /// entrant and to nine residents at most, but for those whose values were taken since by other calls, to nine
    /// more where a winner lacks weight, and to nine times as many where no entrant is to go.
    pub fn choose(
        &mut self,
        map: &IdMap,
        writer: &mut IdWriter,
        weights: &Weights,
        need: Need,
        newcomer: u32,
    ) -> u32
        requires own { writer.old.table ≡ map.now }
        ensures own { writer.new.table ≡ map.now }
        ensures stays { StaysButClerk writer.old writer.new }
    {
        if let Some(way) = self.goes_for_winner(map, writer, weights, need, newcomer) {
            return way;
        }
        if need == Need::Weight || self.entrants.count() > self.doubt.room {
            if let Some(entrant) = self.oldest_entrant(map, writer, newcomer) {
                return self.challenge(map, writer, weights, need, newcomer, entrant);
            }
        }
        if let Some(resident) = self.least_resident(map, writer, newcomer) {
            return self.goes(resident, Stake::Nothing);
        }
        match self.oldest_entrant(map, writer, newcomer) {
            Some(entrant) => self.goes(entrant, Stake::Nothing),
            None => newcomer,
        }
    }

    // The last who won stands against one more resident, where those who went for it are lighter.
    fn goes_for_winner(
        &mut self,
        map: &IdMap,
        writer: &mut IdWriter,
        weights: &Weights,
        need: Need,
        newcomer: u32,
    ) -> Option<u32>
        requires own { writer.old.table ≡ map.now }
        ensures own { writer.new.table ≡ map.now }
        ensures stays { StaysButClerk writer.old writer.new }
    {
        if need == Need::Place {
            return None;
        }
        let Winner { way, lacks } = self.winner.take()?;
        let Standing::Resident { count, .. } = self.standings.of(way) else {
            return None;
        };
        let winner = self.rival_at(map, writer, way, count)?;
        let resident = self.next_resident(map, writer, newcomer)?;
        if way == newcomer || resident.way == way {
            return None;
        }
        let gone = self.decide(winner, resident);
        self.weigh(winner, gone, lacks, weights);
        Some(gone)
    }

    // Who of an entrant and its match goes.
    fn challenge(
        &mut self,
        map: &IdMap,
        writer: &mut IdWriter,
        weights: &Weights,
        need: Need,
        newcomer: u32,
        entrant: Rival,
    ) -> u32
        requires own { writer.old.table ≡ map.now }
        ensures own { writer.new.table ≡ map.now }
        ensures stays { StaysButClerk writer.old writer.new }
    {
        if entrant.count < ENOUGH {
            return self.goes(entrant, Stake::Nothing);
        }
        let Some(resident) = self.next_resident(map, writer, newcomer) else {
            return self.goes(entrant, Stake::Nothing);
        };
        let gone = self.decide(entrant, resident);
        if need == Need::Weight {
            self.weigh(entrant, gone, weights.of(entrant.way), weights);
        }
        gone
    }

    // Who won lacks what the other that went is lighter by.
    fn weigh(&mut self, winner: Rival, gone: u32, lacks: u32, weights: &Weights) {
        let lacks = lacks.saturating_sub(weights.of(gone));
        if gone != winner.way && lacks > 0 {
            self.winner = Some(Winner {
                way: winner.way,
                lacks,
            });
        }
    }

    fn decide(&mut self, entrant: Rival, resident: Rival) -> u32 {
        if entrant.count > resident.count {
            return self.wins(entrant, resident, Stake::Nothing);
        }
        match self.doubt.mood {
            Mood::Moving => self.wins(entrant, resident, Stake::ByAge),
            Mood::Wary => self.loses(entrant, resident.way, resident.count / 2),
            Mood::Steady => self.loses(entrant, resident.way, resident.count.saturating_sub(1)),
        }
    }

    fn wins(&mut self, entrant: Rival, resident: Rival, stake: Stake) -> u32 {
        self.standings
            .set_resident(entrant.way, entrant.count, stake);
        self.goes(resident, stake)
    }

    fn loses(&mut self, entrant: Rival, way: u32, left: u8) -> u32 {
        self.standings.set_resident(way, left, Stake::ByCount);
        self.goes(entrant, Stake::ByCount)
    }

    fn goes(&mut self, rival: Rival, stake: Stake) -> u32 {
        self.standings.set(rival.way, Standing::Absent);
        self.leavers.note(rival.id, rival.count, stake);
        rival.way
    }

    // The first resident in turn whose count is 0, where each that isn't loses one; the ninth goes anyway.
    fn least_resident(&mut self, map: &IdMap, writer: &mut IdWriter, newcomer: u32) -> Option<Rival>
        requires own { writer.old.table ≡ map.now }
        ensures own { writer.new.table ≡ map.now }
        ensures stays { StaysButClerk writer.old writer.new }
    {
        for _ in 0..PATIENCE {
            match self.next_resident(map, writer, newcomer) {
                Some(resident) if resident.count > 0 => {
                    self.standings
                        .set_resident(resident.way, resident.count - 1, Stake::Nothing);
                }
                other => return other,
            }
        }
        self.next_resident(map, writer, newcomer)
    }

    // The first resident in turn that wasn't found since the turn came there last, or the ninth.
    fn next_resident(&mut self, map: &IdMap, writer: &mut IdWriter, newcomer: u32) -> Option<Rival>
        requires own { writer.old.table ≡ map.now }
        ensures own { writer.new.table ≡ map.now }
        ensures stays { StaysButClerk writer.old writer.new }
    {
        let mut patience = PATIENCE;
        for _ in 0..map.ways() {
            let way = self.turn;
            self.turn = place_after(way, 1, map.ways());
            if way != newcomer {
                let match_there = self.resident_at(map, writer, way, &mut patience);
                if match_there.is_some() {
                    return match_there;
                }
            }
        }
        None
    }

    // The resident that has a way, unless it is passed.
    fn resident_at(
        &mut self,
        map: &IdMap,
        writer: &mut IdWriter,
        way: u32,
        patience: &mut u32,
    ) -> Option<Rival>
        requires own { writer.old.table ≡ map.now }
        ensures own { writer.new.table ≡ map.now }
        ensures stays { StaysButClerk writer.old writer.new }
    {
        let Standing::Resident { count, stake } = self.standings.of(way) else {
            return None;
        };
        let (count, is_found) = count_anew(map, writer, way, count);
        if is_found {
            self.doubt.finds(stake);
        }
        self.standings.set_resident(way, count, Stake::Nothing);
        if is_found && *patience > 0 {
            *patience -= 1;
            return None;
        }
        self.rival_at(map, writer, way, count)
    }

    // The entrant that has waited longest, which waits no more.
    fn oldest_entrant(&mut self, map: &IdMap, writer: &mut IdWriter, newcomer: u32) -> Option<Rival>
        requires own { writer.old.table ≡ map.now }
        ensures own { writer.new.table ≡ map.now }
        ensures stays { StaysButClerk writer.old writer.new }
    {
        for _ in 0..self.entrants.count() {
            let way = self.entrants.pop()?;
            if way == newcomer {
                self.standings.stay(way);
            } else {
                let oldest = self.entrant_at(map, writer, way);
                if oldest.is_some() {
                    return oldest;
                }
            }
        }
        None
    }

    fn entrant_at(&mut self, map: &IdMap, writer: &mut IdWriter, way: u32) -> Option<Rival>
        requires own { writer.old.table ≡ map.now }
        ensures own { writer.new.table ≡ map.now }
        ensures stays { StaysButClerk writer.old writer.new }
    {
        let Standing::Entrant { count } = self.standings.of(way) else {
            return None;
        };
        let (count, _is_found) = count_anew(map, writer, way, count);
        self.rival_at(map, writer, way, count)
    }

    // Who has a way. Where its value was taken since, it has no standing any more.
    fn rival_at(&mut self, map: &IdMap, writer: &mut IdWriter, way: u32, count: u8) -> Option<Rival>
        requires own { writer.old.table ≡ map.now }
        ensures own { writer.new.table ≡ map.now }
        ensures stays { StaysButClerk writer.old writer.new }
    {
        if way < map.ways() {
            if let Some(id) = map.id_at(writer, way) {
                return Some(Rival { way, id, count });
            }
        }
        self.standings.set(way, Standing::Absent);
        None
    }
}

// A way's count, with one more where its value was found since this was asked last, and whether it was.
fn count_anew(map: &IdMap, writer: &mut IdWriter, way: u32, count: u8) -> (u8, bool)
    requires own { writer.old.table ≡ map.now }
    ensures own { writer.new.table ≡ map.now }
    ensures stays { StaysButClerk writer.old writer.new }
{
    if way < map.ways() && map.uses_way(writer, way) {
        (counted(count), true)
    } else {
        (count, false)
    }
}

// The way that comes so many after this one, or the first.
pub(crate) fn place_after(way: u32, count: u32, ways: u32) -> u32
    ensures { result ≡ way_after way count ways }
{
    let next = way.saturating_add(count);
    if next < ways { next } else { 0 }
}
