//! The ways of entrants, as they came.
use std::alloc::{AllocError, Global};

/// A way, with what its value weighed as it began to wait.
#[derive(Clone, Copy, Debug)]
struct Entrant {
    way: u32,
    weight: u32,
}

const NOBODY: Entrant = Entrant { way: 0, weight: 0 };

/// A ring with a place for each that may wait. A way that got another id meanwhile stands in it twice.
#[derive(Drop)]
pub(crate) struct Entrants {
    oldest: usize,
    next: usize,
    count: u32,
    weight: u64,
    ring: Vec<Entrant>,
}

impl Entrants {
    pub fn open(alloc: Global, most: u32) -> Result<Entrants, AllocError> {
        let ring = vec![in alloc; NOBODY; most as usize]?;
        Ok(Entrants {
            oldest: 0,
            next: 0,
            count: 0,
            weight: 0,
            ring,
        })
    }

    pub fn count(&self) -> u32 {
        self.count
    }

    /// What all that wait weigh.
    pub fn weight(&self) -> u64 {
        self.weight
    }

    /// Adds the newest, where there is a place.
    pub fn push(&mut self, way: u32, weight: u32) {
        if self.count as usize >= self.ring.len() {
            return;
        }
        if let Some(place) = self.ring.get_mut(self.next) {
            *place = Entrant { way, weight };
        }
        self.next = self.after(self.next);
        self.count = self.count.saturating_add(1);
        self.weight = self.weight.saturating_add(weight as u64);
    }

    /// Takes the way of the oldest, if there is one.
    pub fn pop(&mut self) -> Option<u32> {
        if self.count == 0 {
            return None;
        }
        let entrant = self.ring.get(self.oldest).copied()?;
        self.oldest = self.after(self.oldest);
        self.count -= 1;
        self.weight = self.weight.saturating_sub(entrant.weight as u64);
        Some(entrant.way)
    }

    fn after(&self, place: usize) -> usize {
        let next = place.saturating_add(1);
        if next < self.ring.len() { next } else { 0 }
    }
}
