//! How each way stands with those who choose whose value goes. A way that was emptied meanwhile, by an
//! invalidation, stands as it did until a choice comes to it.
use std::alloc::{AllocError, Global};

/// The greatest count.
const MOST: u8 = 15;

/// What hangs on whether the value of a way is found.
#[derive(Clone, Copy, PartialEq, Eq, Debug)]
pub(crate) enum Stake {
    Nothing,
    /// It stayed, or went, since it had the greater, or the lesser, count.
    ByCount,
    /// It stayed, or went, against the counts.
    ByAge,
}

/// What a way is to a choice, with how often its value was found, as far as marks tell it.
#[derive(Clone, Copy, PartialEq, Eq, Debug)]
pub(crate) enum Standing {
    /// None of its own.
    Absent,
    /// It came of late, and goes unless it wins against a resident.
    Entrant { count: u8 },
    /// It stays until an entrant wins against it.
    Resident { count: u8, stake: Stake },
}

/// The standing of each way.
#[derive(Drop)]
pub(crate) struct Standings {
    ways: Vec<Standing>,
}

impl Standings {
    pub fn open(alloc: Global, ways: u32) -> Result<Standings, AllocError> {
        Ok(Standings {
            ways: vec![in alloc; Standing::Absent; ways as usize]?,
        })
    }

    pub fn of(&self, way: u32) -> Standing {
        match self.ways.get(way as usize) {
            Some(standing) => *standing,
            None => Standing::Absent,
        }
    }

    pub fn set(&mut self, way: u32, standing: Standing) {
        if let Some(had) = self.ways.get_mut(way as usize) {
            *had = standing;
        }
    }

    /// An entrant stays, as a resident.
    pub fn stay(&mut self, way: u32) {
        if let Standing::Entrant { count } = self.of(way) {
            self.set_resident(way, count, Stake::Nothing);
        }
    }

    pub fn set_resident(&mut self, way: u32, count: u8, stake: Stake) {
        self.set(way, Standing::Resident { count, stake });
    }
}

/// One more, where a count isn't the greatest.
pub(crate) fn counted(count: u8) -> u8 {
    if count < MOST { count + 1 } else { MOST }
}
