//! What a store's values weigh, alone and together.
ghost use Rattle.std.specs.Prelude.{◌<◌};

use crate::cache::{SMALL, Shelf, is_held, tenfold};
use crate::ids::view::is_same;
use nr_cache::{StoreShape, Swapped};
use std::process::Abort;

impl Shelf {
    /// Whether a value of that weight is held.
    fn bears<R: Abort>(&mut self, rt: &R, id: u64, weight: u32, wanted: bool)
        requires { 0 < id }
    {
        is_same(
            rt,
            &is_held(self.put(id, 1, tenfold(id), weight, 0)),
            &wanted,
        );
    }

    /// For each of the ids a value of that weight is held.
    fn bears_each<R: Abort>(&mut self, rt: &R, first: u64, end: u64, weight: u32)
        requires { 0 < first }
    {
        for id in first..end {
            self.bears(rt, id, weight, true);
        }
    }

    /// How many of the ids below the end have a value, and what these weigh where an id weighs itself
    /// modulo 4.
    fn held_of_four(&mut self, end: u64) -> (u32, u64) {
        let mut values = 0u32;
        let mut weight = 0u64;
        for id in 1..end {
            if self.look(id).is_some() {
                values = values.saturating_add(1);
                weight = weight.saturating_add(id % 4);
            }
        }
        (values, weight)
    }

    /// So many values are held, which weigh that.
    fn weighs<R: Abort>(&mut self, rt: &R, values: u32, weight: u64) {
        let counts = self.counted();
        is_same(rt, &(counts.values, counts.weight), &(values, weight));
    }
}

/// A store of values that weigh no more than that.
fn of_weight<R: AllocGlobal + Abort>(rt: &R, weight: u64) -> Shelf {
    Shelf::of(rt, &StoreShape { weight, ..SMALL })
}

#[test]
fn what_is_held_weighs_what_it_came_with(rt: HostRuntime) {
    let mut shelf = of_weight(&rt, 10);
    for id in 1..60u64 {
        shelf.bears(&rt, id, (id % 4) as u32, true);
        let (values, weight) = shelf.held_of_four(id + 1);
        assert!(&rt; weight <= 10);
        shelf.looks(&rt, id, Some(10 * id));
        shelf.weighs(&rt, values, weight);
    }
    shelf.is_within();
    shelf.closes(&rt, &[]);
}

#[test]
fn others_go_until_a_value_fits_and_no_more(rt: HostRuntime) {
    let mut shelf = of_weight(&rt, 10);
    shelf.bears_each(&rt, 1, 4, 3);
    shelf.weighs(&rt, 3, 9);
    shelf.bears(&rt, 4, 1, true);
    shelf.weighs(&rt, 4, 10);
    // Of those that weigh three one goes, or the one that weighs one and one of them.
    shelf.bears(&rt, 5, 3, true);
    let weight = shelf.counted().weight;
    assert!(&rt; weight == 10 || weight == 9);
    shelf.bears(&rt, 6, 10, true);
    shelf.weighs(&rt, 1, 10);
    shelf.looks(&rt, 6, Some(60));
    shelf.closes(&rt, &[]);
}

#[test]
fn a_value_in_place_of_another_weighs_in_its_place(rt: HostRuntime) {
    let mut shelf = of_weight(&rt, 10);
    shelf.bears(&rt, 1, 4, true);
    shelf.bears(&rt, 1, 7, true);
    shelf.weighs(&rt, 1, 7);
    shelf.bears(&rt, 2, 3, true);
    shelf.weighs(&rt, 2, 10);
    // The other goes, and not the one that is replaced.
    assert!(&rt; matches!(shelf.swap(1, 10, 11, 8), Swapped::Held(_)));
    shelf.weighs(&rt, 1, 8);
    shelf.looks(&rt, 1, Some(11));
    shelf.bears(&rt, 1, 10, true);
    shelf.weighs(&rt, 1, 10);
    shelf.closes(&rt, &[]);
}

#[test]
fn what_is_heavier_than_all_may_be_is_its_callers_own(rt: HostRuntime) {
    let mut shelf = of_weight(&rt, 10);
    shelf.bears(&rt, 1, 4, true);
    shelf.bears(&rt, 2, 3, true);
    shelf.bears(&rt, 1, 11, false);
    shelf.looks(&rt, 1, None);
    shelf.weighs(&rt, 1, 3);
    assert!(&rt; matches!(shelf.swap(2, 20, 21, 11), Swapped::Own));
    shelf.weighs(&rt, 0, 0);
    shelf.bears(&rt, 2, 3, true);
    let number = shelf.loads(&rt, 3, 0);
    assert!(&rt; !is_held(shelf.land(number, 30, 11)));
    shelf.looks(&rt, 3, None);
    shelf.looks(&rt, 2, Some(20));
    shelf.weighs(&rt, 1, 3);
    shelf.closes(&rt, &[]);
}

#[test]
fn whatever_leaves_weighs_nothing(rt: HostRuntime) {
    let mut shelf = of_weight(&rt, 100);
    for id in 1..7u64 {
        shelf.bears(&rt, id, id as u32, true);
    }
    shelf.weighs(&rt, 6, 21);
    shelf.invalidates(&rt, 2, true);
    shelf.weighs(&rt, 5, 19);
    shelf.evicts(&rt, 3, true);
    shelf.weighs(&rt, 4, 16);
    shelf.begins_change(&rt, 4, true);
    shelf.bears(&rt, 4, 9, false);
    shelf.ends_change(&rt, 4, true);
    shelf.weighs(&rt, 3, 12);
    let Some(given) = shelf.evict_one(0) else {
        panic!(&rt; "there are three")
    };
    shelf.weighs(&rt, 2, 12 - given.id % 10);
    shelf.invalidates_all();
    shelf.weighs(&rt, 0, 0);
    shelf.closes(&rt, &[]);
}

#[test]
fn heavy_values_that_come_once_take_each_others_room(rt: HostRuntime) {
    let mut shelf = of_weight(&rt, 100);
    shelf.bears_each(&rt, 1, 11, 5);
    shelf.bears_each(&rt, 100, 140, 20);
    for id in 1..11u64 {
        shelf.looks(&rt, id, Some(10 * id));
    }
    shelf.weighs(&rt, 12, 90);
    shelf.closes(&rt, &[]);
}

#[test]
fn a_heavy_value_that_comes_again_takes_the_room_of_light_ones(rt: HostRuntime) {
    let mut shelf = of_weight(&rt, 40);
    shelf.bears(&rt, 100, 10, true);
    shelf.bears(&rt, 101, 40, true);
    shelf.bears_each(&rt, 1, 11, 3);
    shelf.bears(&rt, 100, 10, true);
    // Of those that weigh three one goes, and not the one of ten.
    shelf.bears(&rt, 102, 3, true);
    shelf.weighs(&rt, 11, 40);
    // Three more go for it, and not the one that came between.
    shelf.bears(&rt, 103, 9, true);
    shelf.weighs(&rt, 9, 40);
    shelf.looks(&rt, 100, Some(1000));
    shelf.looks(&rt, 102, Some(1020));
    // Then it has had its weight.
    shelf.bears(&rt, 104, 3, true);
    shelf.looks(&rt, 102, None);
    shelf.looks(&rt, 100, Some(1000));
    shelf.closes(&rt, &[]);
}

#[test]
fn without_a_bound_nothing_is_weighed(rt: HostRuntime) {
    let mut shelf = Shelf::open(&rt);
    shelf.bears(&rt, 1, 4_000_000_000, true);
    shelf.bears(&rt, 2, 4_000_000_000, true);
    shelf.weighs(&rt, 2, 0);
    shelf.closes(&rt, &[]);
}
