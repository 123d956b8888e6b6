//! Ids are admitted, found, and lose their ways.
use crate::ids::office::{Office, Told};
use crate::ids::view::is_same;
use nr_ids::{Directory, OpenFault, Plan, Refused};
use std::process::Abort;

#[test]
fn an_id_is_claimed_admitted_and_found(rt: HostRuntime) {
    let mut office = Office::open(&rt, 1);
    is_same(&rt, &office.finds(5), &None);
    is_same(&rt, &office.requests(5), &Told::Granted(5));
    // Until the clerk answers, the group is busy for every id.
    is_same(&rt, &office.requests(5), &Told::Busy);
    is_same(&rt, &office.requests(6), &Told::Busy);
    is_same(&rt, &office.finds(5), &None);
    let way = office.admits(5);
    is_same(&rt, &office.finds(5), &way.ok());
    is_same(&rt, &way.map(Told::Named), &Ok(office.requests(5)));
    is_same(&rt, &office.admits(5), &Err(Refused::NoClaim));
}

#[test]
fn a_way_is_used_again(rt: HostRuntime) {
    let mut office = Office::open(&rt, 1);
    for id in 1..9 {
        assert!(rt; office.takes_in(id).is_some());
    }
    // The group is full, and its claim stays open until it is cleared.
    is_same(&rt, &office.requests(9), &Told::Granted(9));
    is_same(&rt, &office.admits(9), &Err(Refused::Full));
    let way = office.finds(4);
    is_same(&rt, &office.clerk_finds(4, true), &way);
    is_same(&rt, &office.clerk_finds(4, false), &None);
    is_same(&rt, &office.admits(9).ok(), &way);
    is_same(&rt, &office.finds(9), &way);
    is_same(&rt, &office.finds(4), &None);
}

#[test]
fn a_claim_is_closed_without_a_name(rt: HostRuntime) {
    let mut office = Office::open(&rt, 1);
    is_same(&rt, &office.clears(3), &false);
    is_same(&rt, &office.requests(3), &Told::Granted(3));
    is_same(&rt, &office.clears(3), &true);
    is_same(&rt, &office.finds(3), &None);
    is_same(&rt, &office.requests(3), &Told::Granted(3));
}

#[test]
fn a_note_tells_of_a_name(rt: HostRuntime) {
    let mut office = Office::open(&rt, 1);
    let way = office.takes_in(3);
    office.tells_reader();
    is_same(&rt, &office.finds(3), &way);
    office.tells_clerk();
    is_same(&rt, &office.clerk_finds(3, false), &way);
}

#[test]
fn what_was_found_is_passed_once(rt: HostRuntime) {
    let mut office = Office::open(&rt, 1);
    for id in 1..9 {
        assert!(rt; office.takes_in(id).is_some());
    }
    // The last id has the first way.
    is_same(&rt, &office.chooses(9), &Some(8));
    office.marks(7);
    office.marks(7);
    office.marks(5);
    is_same(&rt, &office.chooses(9), &Some(6));
    is_same(&rt, &office.chooses(9), &Some(4));
    assert!(rt; !office.takes_mark(7));
    assert!(rt; office.clerk_finds(3, true).is_some());
    is_same(&rt, &office.chooses(9), &None);
}

#[test]
fn a_mark_is_taken_once(rt: HostRuntime) {
    let mut office = Office::open(&rt, 1);
    for id in 1..9 {
        assert!(rt; office.takes_in(id).is_some());
        assert!(rt; !office.takes_mark(id));
        office.marks(id);
    }
    assert!(rt; office.takes_mark(3));
    assert!(rt; !office.takes_mark(3));
    is_same(&rt, &office.chooses(9), &Some(3));
}

// All are passed, and then the first one is chosen.
#[test]
fn where_all_were_found_one_is_chosen_yet(rt: HostRuntime) {
    let mut office = Office::open(&rt, 1);
    for id in 1..9 {
        assert!(rt; office.takes_in(id).is_some());
        office.marks(id);
    }
    is_same(&rt, &office.chooses(9), &Some(8));
    for id in 1..9 {
        assert!(rt; !office.takes_mark(id));
    }
}

// Of the first group are 2, 4 and 5, of the second 1, 3 and 6: each has the last way that was free. A mark
// of 2 is none of 1, which has the same place, and the choices of the second group move none of the first.
#[test]
fn each_group_has_marks_and_choices_of_its_own(rt: HostRuntime) {
    let mut office = Office::open(&rt, 2);
    for id in 1..7 {
        assert!(rt; office.takes_in(id).is_some());
    }
    office.marks(2);
    office.marks(6);
    assert!(rt; !office.takes_mark(1));
    assert!(rt; !office.takes_mark(5));
    for wanted in [None, None, None, None, None, Some(3), Some(1), None] {
        is_same(&rt, &office.chooses(7), &wanted);
    }
    for wanted in [None, None, None, None, None, Some(5), Some(4), None] {
        is_same(&rt, &office.chooses(9), &wanted);
    }
    assert!(rt; !office.takes_mark(2));
    assert!(rt; !office.takes_mark(6));
}

#[test]
fn loads_ahead_leave_all_as_it_is(rt: HostRuntime) {
    let mut office = Office::open(&rt, 3);
    let way = office.takes_in(3);
    office.loads_ahead(&[3, 4, 5, 3]);
    is_same(&rt, &office.finds(3), &way);
}

#[test]
fn bad_sizes_are_refused(rt: HostRuntime) {
    for groups in [0, 536_870_912] {
        let opened = Directory::open(rt.alloc(), Plan { groups, key: 1 });
        assert!(rt; matches!(opened, Err(OpenFault::BadSize)));
    }
}
