//! Each refusal, and what stays after it.
use crate::ids::view::{SMALL, View, minus, plus, row};
use nr_idmap::{Evict, FoundId, IdFault, IdShape, NoSlot, Refused, ReplaceFault, UpdateFault};

const LAST: u64 = 4_194_303;

#[test]
fn bad_sizes_are_refused(rt: HostRuntime) {
    let groups = 536_870_912;
    let first_number = LAST + 1;
    for shape in [
        IdShape { groups: 0, ..SMALL },
        IdShape { groups, ..SMALL },
        IdShape { slots: 0, ..SMALL },
        IdShape {
            readers: 0,
            ..SMALL
        },
        IdShape { rows: 0, ..SMALL },
        IdShape { rows: 255, ..SMALL },
        IdShape {
            first_number,
            ..SMALL
        },
    ] {
        View::is_bad(&rt, &shape);
    }
}

#[test]
fn an_id_without_a_claim_is_not_admitted(rt: HostRuntime) {
    let mut view = View::open(&rt, &SMALL);
    view.refuses(&rt, 5, Refused::NoClaim);
    view.misses(&rt, 5, FoundId::Absent);
    view.close();
}

#[test]
fn an_id_that_has_a_way_is_not_admitted_again(rt: HostRuntime) {
    let mut view = View::open(&rt, &SMALL);
    view.takes_in(&rt, 5, &[row(5, 5)]);
    view.claims(&rt, 6);
    view.refuses(&rt, 5, Refused::Named(7));
    view.finds(&rt, 5, &[row(5, 5)]);
    view.close();
}

#[test]
fn a_full_group_admits_none(rt: HostRuntime) {
    let mut view = View::open(&rt, &SMALL);
    for id in 1..9 {
        view.takes_in(&rt, id, &[row(id, id)]);
    }
    view.claims(&rt, 9);
    view.refuses(&rt, 9, Refused::Full);
    // The claim is open still, so the id is admitted once a way has lost its name.
    view.evicts(&rt, 4, Evict::Evicted);
    view.admits(&rt, 9, &[row(9, 9)]);
    view.close();
}

#[test]
fn writes_of_absent_ids_are_refused(rt: HostRuntime) {
    let mut view = View::open(&rt, &SMALL);
    view.updates(&rt, 5, &[plus(1, 1)], Err(IdFault::Absent));
    view.replaces(&rt, 5, &[row(1, 1)], Err(IdFault::Absent));
    view.evicts(&rt, 5, Evict::Nothing);
    view.close();
}

#[test]
fn updates_that_do_not_fit_are_refused(rt: HostRuntime) {
    let mut view = View::open(&rt, &SMALL);
    view.takes_in(&rt, 5, &[row(2, 2)]);
    let no_row = IdFault::Refused(UpdateFault::NoRow);
    view.updates(&rt, 5, &[minus(1, 1)], Err(no_row));
    let more = [plus(1, 1), plus(1, 2), plus(1, 3), plus(1, 4)];
    view.updates(&rt, 5, &more, Err(IdFault::Refused(UpdateFault::TooMany)));
    view.finds(&rt, 5, &[row(2, 2)]);
    view.close();
}

// One slot: the first id has it, and no write finds another.
#[test]
fn without_a_slot_the_upquery_comes_back(rt: HostRuntime) {
    let mut view = View::open(&rt, &IdShape { slots: 1, ..SMALL });
    view.takes_in(&rt, 5, &[row(5, 5)]);
    let no_slot = ReplaceFault::NoSlot(NoSlot { live: 1, held: 0 });
    view.replaces(&rt, 5, &[row(1, 1)], Err(IdFault::Refused(no_slot)));
    view.claims(&rt, 6);
    view.fills_late(&rt, 6, 1, 5);
    view.finds(&rt, 6, &[]);
    view.close();
}

#[test]
fn a_worn_number_is_ended_by_its_fill_alone(rt: HostRuntime) {
    let shape = IdShape {
        first_number: LAST,
        ..SMALL
    };
    let mut view = View::open(&rt, &shape);
    view.claims(&rt, 5);
    view.fills_worn(&rt, 5);
    view.finds(&rt, 5, &[]);
    view.close();
}
