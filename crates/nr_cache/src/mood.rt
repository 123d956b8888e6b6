//! Whether counts tell who will be found again. It is learnt from those who were challenged: of each two one stays,
//! who may be found, and one goes, who may be asked for again.
ghost use Rattle.std.specs.Prelude.{◌<◌};

use crate::entrants::Entrants;
use crate::standing::Stake;

/// What it counts that one who stayed is found.
const FOUND: u32 = 4;
/// What it counts that one who went is asked for again, as far as that is known.
const ASKED: u32 = 3;

/// By how much residents lose who win, and how many entrants there are.
#[derive(Clone, Copy, PartialEq, Eq, Debug)]
pub(crate) enum Mood {
    /// Counts tell it.
    Steady,
    Wary,
    /// They tell nothing, and who comes stays.
    Moving,
}

impl Mood {
    /// How many of so many values may be entrants: eight at least, of a store that has many more.
    pub fn room(self, capacity: u32) -> u32 {
        let least = (capacity / 8).min(8).max(1);
        (capacity / self.share()).max(least)
    }

    /// How much of so much weight entrants may have.
    fn weight(self, most: u64) -> u64 {
        most / self.share() as u64
    }

    // Of how many values, or how much weight, one is an entrant's.
    fn share(self) -> u32
        ensures { 0 < result }
    {
        match self {
            Mood::Steady => 50,
            Mood::Wary => 20,
            Mood::Moving => 10,
        }
    }

    fn next(self) -> Mood {
        match self {
            Mood::Steady => Mood::Wary,
            Mood::Wary | Mood::Moving => Mood::Moving,
        }
    }

    fn last(self) -> Mood {
        match self {
            Mood::Moving => Mood::Wary,
            Mood::Wary | Mood::Steady => Mood::Steady,
        }
    }
}

/// The mood, and what speaks against the counts since it changed last: `middle` where nothing does more than for them.
#[derive(Clone, Copy, Debug)]
pub(crate) struct Doubt {
    pub mood: Mood,
    /// How many entrants there may be, beside the one that comes.
    pub room: u32,
    /// How much they may weigh.
    weight: u64,
    capacity: u32,
    most: u64,
    points: u32,
    middle: u32,
}

impl Doubt {
    /// Of so many values, which weigh so much.
    pub fn new(capacity: u32, most: u64) -> Doubt {
        let middle = (capacity / 5).max(16);
        Doubt {
            mood: Mood::Wary,
            room: Mood::Wary.room(capacity),
            weight: Mood::Wary.weight(most),
            capacity,
            most,
            points: middle,
            middle,
        }
    }

    /// Whether values have weights that count.
    pub fn weighs(&self) -> bool {
        self.most > 0
    }

    /// Whether more waits than may, or more than one and too heavy.
    pub fn is_exceeded(&self, entrants: &Entrants) -> bool {
        let count = entrants.count();
        count > self.room || (count > 1 && entrants.weight() > self.weight)
    }

    /// One who stayed for that was found.
    pub fn finds(&mut self, stake: Stake) {
        match stake {
            Stake::Nothing => {}
            Stake::ByCount => self.falls(FOUND),
            Stake::ByAge => self.grows(FOUND),
        }
    }

    /// One who went for that was asked for again.
    pub fn misses(&mut self, stake: Stake) {
        match stake {
            Stake::Nothing => {}
            Stake::ByCount => self.grows(ASKED),
            Stake::ByAge => self.falls(ASKED),
        }
    }

    fn grows(&mut self, points: u32) {
        self.points = self.points.saturating_add(points);
        if self.points >= self.middle.saturating_mul(2) {
            self.turns(self.mood.next());
        }
    }

    fn falls(&mut self, points: u32) {
        self.points = self.points.saturating_sub(points);
        if self.points == 0 {
            self.turns(self.mood.last());
        }
    }

    fn turns(&mut self, mood: Mood) {
        self.mood = mood;
        self.room = mood.room(self.capacity);
        self.weight = mood.weight(self.most);
        self.points = self.middle;
    }
}
