//! The two groups of ids. What is expected was computed in Python.
use crate::ids::office::{KEY, Office};
use crate::ids::view::is_same;
use nr_ids::Plan;
use std::process::Abort;

#[test]
fn groups_are_those_of_the_hash(rt: HostRuntime) {
    let rows = [
        (1, 0, 1, 0, 0),
        (1_000, 0, 1, 747, 386),
        (1_000, 0, 2, 494, 773),
        (1_000, 7, 1, 232, 709),
        (1_000, KEY, 1, 806, 848),
        (1_000, KEY, 2, 116, 199),
        (1_000, KEY, u64::MAX, 573, 112),
        (536_870_911, KEY, 123_456_789, 436_191_126, 399_477_586),
    ];
    for (groups, key, id, first, second) in rows {
        let plan = Plan { groups, key };
        is_same(
            &rt,
            &(plan.group_of(id), plan.second_of(id), plan.first_way(id)),
            &(first, second, 8 * first),
        );
    }
}

// 640 even ids over 800 ways.
#[test]
fn even_ids_spread(rt: HostRuntime) {
    let mut office = Office::open(&rt, 100);
    let mut without: u64 = 0;
    for half in 1..641 {
        if office.takes_in(2 * half).is_none() {
            without += 1;
        }
    }
    is_same(&rt, &without, &1);
}
