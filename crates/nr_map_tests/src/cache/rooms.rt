//! Which value goes where a store is full, or on its caller's word.
ghost use Rattle.std.specs.Prelude.{◌<◌};

use crate::cache::{SMALL, Shelf};
use crate::ids::view::{is_same, row};
use nr_cache::{GivenValue, StoreShape};
use nr_idmap::Reaped;
use std::process::Abort;

#[test]
fn a_landing_makes_room(rt: HostRuntime) {
    let mut shelf = Shelf::open(&rt);
    for id in 100..200u64 {
        let number = shelf.loads(&rt, id, 0);
        shelf.lands(&rt, number, id);
        shelf.finds(&rt, id, Some(id));
    }
    shelf.closes(&rt, &[]);
}

#[test]
fn one_value_goes_where_the_store_is_full(rt: HostRuntime) {
    let mut shelf = Shelf::of_few(&rt, 3);
    for id in 1..4u64 {
        shelf.puts(&rt, id, 10 * id);
        shelf.counts(&rt, id as u32, 0, 0);
    }
    for id in 4..40u64 {
        shelf.puts(&rt, id, 10 * id);
        shelf.counts(&rt, 3, 0, 0);
        shelf.looks(&rt, id, Some(10 * id));
    }
    // A value in place of another makes no other go.
    shelf.puts(&rt, 39, 391);
    shelf.counts(&rt, 3, 0, 0);
    shelf.is_within();
    shelf.closes(&rt, &[]);
}

// The choice passes what was found since it came there last.
#[test]
fn what_is_found_stays(rt: HostRuntime) {
    let mut shelf = Shelf::of_few(&rt, 4);
    for id in 1..40u64 {
        shelf.puts(&rt, id, 10 * id);
        shelf.finds(&rt, 1, Some(10));
    }
    shelf.closes(&rt, &[]);
}

// Who puts a value may hold it, and still goes as one that nobody asked for.
#[test]
fn what_is_only_held_goes(rt: HostRuntime) {
    let mut shelf = Shelf::of_few(&rt, 4);
    shelf.puts_each(&rt, 1, 6);
    shelf.holds(&rt, 5, 50);
    shelf.puts_each(&rt, 6, 8);
    shelf.looks(&rt, 5, None);
    shelf.closes(&rt, &[]);
}

#[test]
fn what_is_found_as_well_stays(rt: HostRuntime) {
    let mut shelf = Shelf::of_few(&rt, 4);
    shelf.puts_each(&rt, 1, 6);
    shelf.holds(&rt, 5, 50);
    shelf.finds(&rt, 5, Some(50));
    shelf.puts_each(&rt, 6, 8);
    shelf.looks(&rt, 5, Some(50));
    shelf.closes(&rt, &[]);
}

/// A store of sixteen values, in four groups.
fn roomy<R: AllocGlobal + Abort>(rt: &R) -> Shelf {
    Shelf::of(rt, &StoreShape { groups: 4, ..SMALL })
}

// Ids that are put once and never found take the places of their like.
#[test]
fn a_scan_takes_none_that_were_found(rt: HostRuntime) {
    let mut shelf = roomy(&rt);
    shelf.puts_and_finds(&rt, 1, 13);
    shelf.puts_and_looks(&rt, 13, 200);
    shelf.finds_each(&rt, 1, 13);
    shelf.closes(&rt, &[]);
}

// Ids that are asked for again and again take the places of others, which were there before.
#[test]
fn a_set_below_the_capacity_stops_missing(rt: HostRuntime) {
    let mut shelf = roomy(&rt);
    shelf.puts_each(&rt, 101, 133);
    for _round in 0..6 {
        shelf.asks_for_each(&rt, 1, 9);
    }
    shelf.finds_each(&rt, 1, 9);
    shelf.closes(&rt, &[]);
}

// Where all ways of a group are taken one of its values goes, whatever the choice says.
#[test]
fn a_full_group_makes_room(rt: HostRuntime) {
    let mut shelf = Shelf::of(
        &rt,
        &StoreShape {
            groups: 1,
            capacity: 8,
            ..SMALL
        },
    );
    shelf.puts_and_looks(&rt, 1, 60);
    shelf.counts(&rt, 8, 0, 0);
    shelf.closes(&rt, &[]);
}

// What is below the bound goes, though it was found and the others were not.
#[test]
fn a_value_below_the_bound_goes_first(rt: HostRuntime) {
    for stale in 1..5u64 {
        has_gone(&rt, stale, 5, false);
        has_gone(&rt, stale, 6, true);
    }
}

/// Whether the one of four values goes whose stamp is 5, for the bound. The choice passes it.
fn has_gone<R: AllocGlobal + Abort>(rt: &R, stale: u64, bound: u64, is_gone: bool)
    requires { 0 < stale }
{
    let mut shelf = Shelf::of_stale(rt, stale);
    shelf.stamps(rt, 5, 6, bound);
    is_same(rt, &shelf.look(stale).is_none(), &is_gone);
    shelf.closes(rt, &[]);
}

#[test]
fn values_make_room_one_by_one(rt: HostRuntime) {
    let mut shelf = Shelf::open(&rt);
    shelf.gives_up(&rt, None);
    shelf.puts_each(&rt, 1, 6);
    for gone in 1..6u32 {
        shelf.makes_room(&rt, 5 - gone);
    }
    shelf.gives_up(&rt, None);
    shelf.reaps(&rt, Reaped::Nothing);
    shelf.closes(&rt, &[]);
}

#[test]
fn who_makes_room_leaves_the_flights(rt: HostRuntime) {
    let mut shelf = Shelf::open(&rt);
    let number = shelf.loads(&rt, 7, 70);
    shelf.puts(&rt, 8, 80);
    shelf.gives_up(&rt, Some(eight()));
    shelf.lands(&rt, number, 700);
    shelf.finds(&rt, 7, Some(700));
    shelf.closes(&rt, &[]);
}

// It is told at once, and comes out once its reader has found another.
#[test]
fn a_held_value_makes_room(rt: HostRuntime) {
    let mut shelf = Shelf::open(&rt);
    shelf.puts(&rt, 8, 80);
    shelf.finds(&rt, 8, Some(80));
    shelf.gives_up(&rt, Some(eight()));
    shelf.reaps(&rt, Reaped::Held);
    shelf.gives_up(&rt, None);
    shelf.finds(&rt, 8, None);
    shelf.reaps(&rt, Reaped::Set);
    shelf.gave_out(&rt, &[row(0, 8), row(1, 80)]);
    shelf.closes(&rt, &[]);
}

fn eight() -> GivenValue {
    GivenValue {
        id: 8,
        stamp: 1,
        value: 80,
    }
}

// What is below the bound makes room, wherever it is, and else what wasn't found.
#[test]
fn a_value_below_the_bound_makes_room_first(rt: HostRuntime) {
    for stale in 1..5u64 {
        makes_room(&rt, stale, 6, true);
        makes_room(&rt, stale, 5, false);
    }
}

/// Whether the one of four values makes room whose stamp is 5, for the bound.
fn makes_room<R: AllocGlobal + Abort>(rt: &R, stale: u64, bound: u64, is_given: bool)
    requires { 0 < stale }
{
    let mut shelf = Shelf::of_stale(rt, stale);
    let Some(given) = shelf.evict_one(bound) else {
        panic!(rt; "a value goes")
    };
    is_same(rt, &(given.id == stale), &is_given);
    shelf.closes(rt, &[]);
}

// Where all are found, one goes all the same.
#[test]
fn of_found_values_one_goes(rt: HostRuntime) {
    let mut shelf = Shelf::of_few(&rt, 1);
    for id in 1..40u64 {
        shelf.puts(&rt, id, 10 * id);
        shelf.finds(&rt, id, Some(10 * id));
        shelf.counts(&rt, 1, 0, 0);
    }
    shelf.closes(&rt, &[]);
}
