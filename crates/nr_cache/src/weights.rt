//! What values weigh, of a store that has a bound for that beside the one for their count.
ghost use Rattle.std.specs.Prelude.{◌≡◌, ◌<◌, ◌↔◌, IfOk, IsTrue, slice_index};

use std::alloc::{AllocError, Global};
use std::marker::Model;

/// What each way's value weighs, what all do, and how much all may. Where nothing is weighed no way has a place.
#[derive(Drop)]
pub(crate) struct Weights {
    each: Vec<u32>,
    sum: u64,
    most: u64,
}

impl Model for Weights {
    ghost use Rattle.std.specs.Prelude.{◌≡◌, ◌≤◌, sum as sum_of};
    ghost use Rattle.nr_cache.specs.Weights.{Load};

    ghost Value = { Load };

    ghost view = { λ weights. record { each = weights.each.items; most = weights.most } };

    ghost invariant = { λ weights. (weights.sum ≡ sum_of weights.each.items) × (weights.sum ≤ weights.most) };
}

impl Weights {
    ghost use Rattle.nr_cache.specs.Weights.{Fits, IsLight, no_load, weight_in, weighs_at};

    /// Nothing weighs at first. By the bound 0 nothing is weighed.
    pub fn open(alloc: Global, most: u64, ways: u32) -> Result<Weights, AllocError>
        ensures { IfOk result (λ made. made ≡ no_load most ways) }
    {
        if most == 0 {
            return Ok(Weights {
                each: vec![in alloc; 0; 0]?,
                sum: 0,
                most: u64::MAX,
            });
        }
        Ok(Weights {
            each: vec![in alloc; 0; ways as usize]?,
            sum: 0,
            most,
        })
    }

    /// What all weigh.
    pub fn sum(&self) -> u64
        ensures is { result ≡ weight_in self.now }
        ensures light { IsLight self.now }
    {
        self.sum
    }

    /// Whether a value of that weight can't be held, whatever goes for it.
    pub fn is_too_heavy(&self, weight: u32) -> bool
        ensures { IsTrue result ↔ self.now.most < weight }
    {
        weight as u64 > self.most
    }

    /// Whether one of that weight fits in a way, in place of what the way has.
    pub fn fits(&self, way: u32, weight: u32) -> bool
        ensures { IsTrue result ↔ Fits way weight self.now }
    {
        let others = self.sum - self.of(way) as u64;
        weight as u64 <= self.most - others
    }

    /// A way weighs so much from now on.
    pub fn set(&mut self, way: u32, weight: u32)
        requires { Fits way weight self.old }
        ensures { self.new ≡ weighs_at way weight self.old }
    {
        let place = way as usize;
        if place < self.each.len() {
            self.sum = self.sum - self.each[place] as u64 + weight as u64;
            self.each[place] = weight;
        }
    }

    /// A way has no value any more.
    pub fn leave(&mut self, way: u32)
        ensures { self.new ≡ weighs_at way 0 self.old }
    {
        let place = way as usize;
        if place < self.each.len() {
            self.sum -= self.each[place] as u64;
            self.each[place] = 0;
        }
    }

    /// What a way weighs.
    pub fn of(&self, way: u32) -> u32
        ensures { result ≡ slice_index self.now.each way }
    {
        match self.each.get(way as usize) {
            Some(weight) => *weight,
            None => 0,
        }
    }
}
