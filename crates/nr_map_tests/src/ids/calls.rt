//! Each call on its happy path, by one thread.
ghost use Rattle.std.specs.Prelude.{◌<◌};

use crate::ids::view::{SMALL, View, is_same, is_set, plus, row};
use nr_idmap::{Evict, FoundId, IdShape, Looked};
use nr_model::RowSet;

const ONE: u64 = 1 << 40;

const TWO: u64 = 2;

#[test]
fn an_id_is_claimed_admitted_filled_and_found(rt: HostRuntime) {
    let mut view = View::open(&rt, &SMALL);
    view.misses(&rt, ONE, FoundId::Absent);
    view.claims(&rt, ONE);
    // The claim is its group's until the writer answers it.
    view.claims_nothing(&rt, ONE);
    view.misses(&rt, ONE, FoundId::Absent);
    view.admits(&rt, ONE, &[row(7, 1), row(5, 2)]);
    view.finds(&rt, ONE, &[row(5, 2), row(7, 1)]);
    view.claims_nothing(&rt, ONE);
    view.close();
}

#[test]
fn a_find_has_all_rows_without_the_tag(rt: HostRuntime) {
    let mut view = View::open(&rt, &SMALL);
    let given = [row(1, 9), row(2, 8), row(2, 8), row(3, 0)];
    view.takes_in(&rt, ONE, &given);
    view.takes_in(&rt, TWO, &[]);
    view.finds(&rt, ONE, &given);
    view.finds(&rt, TWO, &[]);
    view.misses(&rt, 3, FoundId::Absent);
    view.close();
}

#[test]
fn updates_and_replacements_leave_the_tag(rt: HostRuntime) {
    let mut view = View::open(&rt, &SMALL);
    view.takes_in(&rt, ONE, &[row(5, 5)]);
    view.takes_in(&rt, TWO, &[row(6, 6)]);
    view.updates(&rt, ONE, &[plus(1, 0)], Ok(()));
    view.finds(&rt, ONE, &[row(1, 0), row(5, 5)]);
    view.replaces(&rt, TWO, &[row(9, 9)], Ok(()));
    view.finds(&rt, TWO, &[row(9, 9)]);
    view.finds(&rt, ONE, &[row(1, 0), row(5, 5)]);
    view.close();
}

#[test]
fn the_writer_sees_what_it_put(rt: HostRuntime) {
    let mut view = View::open(&rt, &SMALL);
    view.overlooks(&rt, TWO, Looked::Absent);
    view.takes_in(&rt, TWO, &[row(4, 4), row(3, 3)]);
    view.sees(&rt, TWO, &[row(3, 3), row(4, 4)]);
    view.updates(&rt, TWO, &[plus(1, 1)], Ok(()));
    view.sees(&rt, TWO, &[row(1, 1), row(3, 3), row(4, 4)]);
    view.evicts(&rt, TWO, Evict::Evicted);
    view.overlooks(&rt, TWO, Looked::Absent);
    view.close();
}

#[test]
fn a_way_is_used_again(rt: HostRuntime) {
    let mut view = View::open(&rt, &SMALL);
    for id in 1..9 {
        view.takes_in(&rt, id, &[row(id, id)]);
    }
    view.evicts(&rt, 3, Evict::Evicted);
    view.misses(&rt, 3, FoundId::Absent);
    view.takes_in(&rt, ONE, &[row(4, 4)]);
    view.finds(&rt, ONE, &[row(4, 4)]);
    view.finds(&rt, 8, &[row(8, 8)]);
    view.close();
}

#[test]
fn what_was_withdrawn_is_asked_for_anew(rt: HostRuntime) {
    let mut view = View::open(&rt, &SMALL);
    for number in 0..3 {
        view.claims(&rt, ONE);
        // The way with the greatest number is taken, whose ticket number each withdrawal raises.
        view.withdraws(&rt, ONE, 7, number);
        view.misses(&rt, ONE, FoundId::Absent);
    }
    view.close();
}

#[test]
fn an_open_upquery_is_pending_and_alone(rt: HostRuntime) {
    let mut view = View::open(&rt, &SMALL);
    view.claims(&rt, 5);
    view.is_pending(&rt, 5, &[row(1, 2)]);
    view.finds(&rt, 5, &[row(1, 2)]);
    view.close();
}

#[test]
fn an_open_upquery_ends_with_its_map(rt: HostRuntime) {
    let mut view = View::open(&rt, &SMALL);
    view.claims(&rt, 5);
    view.ends_with(&rt, 5);
}

#[test]
fn who_heard_of_a_fill_finds_it(rt: HostRuntime) {
    let mut view = View::open(&rt, &SMALL);
    view.takes_in(&rt, ONE, &[row(5, 5)]);
    view.tells();
    view.finds(&rt, ONE, &[row(5, 5)]);
    view.close();
}

#[test]
fn the_writer_learns_which_ids_are_found(rt: HostRuntime) {
    let mut view = View::open(&rt, &SMALL);
    view.uses(&rt, 8, false);
    for id in 1..9 {
        view.takes_in(&rt, id, &[row(id, id)]);
    }
    view.uses(&rt, 8, false);
    view.finds(&rt, 8, &[row(8, 8)]);
    view.finds(&rt, 7, &[row(7, 7)]);
    // A look of the writer's doesn't count.
    view.sees(&rt, 6, &[row(6, 6)]);
    view.uses(&rt, 8, true);
    view.uses(&rt, 8, false);
    view.finds(&rt, 8, &[row(8, 8)]);
    view.uses_its_way(&rt, 8, true);
    view.uses_its_way(&rt, 8, false);
    view.finds(&rt, 8, &[row(8, 8)]);
    view.chooses(&rt, 9, Some(6));
    view.evicts(&rt, 6, Evict::Evicted);
    view.takes_in(&rt, 9, &[row(9, 9)]);
    view.chooses(&rt, 6, Some(5));
    view.close();
}

// The ids 1 and 3 are of the second group, and 2 of the first, where it has the place that 1 has there.
#[test]
fn the_writer_learns_it_group_by_group(rt: HostRuntime) {
    let mut view = View::open(&rt, &IdShape { groups: 2, ..SMALL });
    for id in 1..4 {
        view.takes_in(&rt, id, &[row(id, id)]);
    }
    view.finds(&rt, 1, &[row(1, 1)]);
    view.uses(&rt, 2, false);
    view.uses(&rt, 3, false);
    view.uses(&rt, 1, true);
    view.uses(&rt, 1, false);
    view.finds(&rt, 2, &[row(2, 2)]);
    view.uses(&rt, 1, false);
    view.uses(&rt, 2, true);
    view.close();
}

#[test]
fn a_larger_map_has_its_sizes(rt: HostRuntime) {
    let shape = IdShape {
        groups: 1_000,
        slots: 100,
        readers: 3,
        rows: 254,
        ..SMALL
    };
    let view = View::open(&rt, &shape);
    view.is_tied();
    view.sizes(&rt, 8_000, 254, 3);
    view.close();
}
