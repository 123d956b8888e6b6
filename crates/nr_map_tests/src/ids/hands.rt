//! Finds that hold what they found.
ghost use Rattle.std.specs.Prelude.{◌≡◌, ◌<◌, All};

use crate::ids::view::{SMALL, View, is_granted, is_same, is_set, plus, row};
use nr_idmap::{BATCH, Evict, FoundId, IdHand, IdShape, Reaped, Reclaimed, WantedId};
use nr_model::{Row, RowSet};
use std::marker::Model;
use std::process::Abort;

const ONE: u64 = 1 << 40;

const TWO: u64 = 2;

/// A map over ids with two readers, of which one is in a hand.
const PAIR: IdShape = IdShape {
    readers: 2,
    ..SMALL
};

/// A view, and a hand of another of its readers.
struct Holder {
    view: View,
    hand: IdHand,
}

impl Model for Holder {
    ghost use Rattle.std.specs.Prelude.{◌≡◌};
    ghost use Rattle.nr_idmap.specs.Keepers.{IdTable};
    ghost use Rattle.nr_idmap.specs.IdHands.{hand_table_of};

    ghost Value = { IdTable };

    ghost view = { λ holder. holder.view };

    ghost invariant = { λ holder. hand_table_of holder.hand ≡ holder.view };
}

impl Holder {
    fn open<R: AllocGlobal + Abort>(rt: &R, shape: &IdShape) -> Holder {
        let (view, reader) = View::open_pair(rt, shape);
        let hand = IdHand::of(reader);
        is_same(rt, &hand.id(), &None);
        is_set(rt, hand.rows(), &[]);
        Holder { view, hand }
    }

    fn close(self) {
        let Holder { view, hand } = self;
        let _reader = hand.into_reader(view.map());
        view.close();
    }

    /// What is held.
    fn holds<R: Abort>(&self, rt: &R, id: u64, rows: &[Row]) {
        is_same(rt, &self.hand.id(), &Some(id));
        is_set(rt, self.hand.rows(), rows);
        let mut room = RowSet::new();
        self.hand.copy_to(&mut room);
        is_set(rt, room.as_slice(), rows);
    }

    /// A hand that holds nothing finds as a reader does, and so does one that goes on to ways that it has
    /// looked up.
    fn finds<R: Abort>(&mut self, rt: &R, id: u64, why: FoundId, rows: &[Row])
        requires { 0 < id }
        ensures { self.new ≡ self.old }
    {
        let mut room = RowSet::new();
        self.hand.release(self.view.map());
        let found = self.hand.find(self.view.map(), id, &mut room);
        is_same(rt, &found, &why);
        is_set(rt, room.as_slice(), rows);
        is_same(rt, &self.hand.id(), &None);
        self.goes_on(rt, id, why, rows);
        self.hand.release(self.view.map());
    }

    /// Finds of the id twice, in the ways that were looked up for it, hold its set for no id.
    fn goes_on<R: Abort>(&mut self, rt: &R, id: u64, why: FoundId, rows: &[Row])
        requires { 0 < id }
        ensures { self.new ≡ self.old }
    {
        let mut room = RowSet::new();
        let mut ways = [None; BATCH];
        self.hand.look_up(self.view.map(), &[id, id], &mut ways);
        let found = self.hand.find_in(self.view.map(), ways[0], id, &mut room);
        is_same(rt, &found, &why);
        is_set(rt, room.as_slice(), rows);
        is_set(rt, self.hand.rows(), &[]);
        let mut cells = [row(7, 7)];
        let (found, count) = self
            .hand
            .find_first_in(self.view.map(), ways[1], id, &mut cells);
        is_same(rt, &(found, count as usize), &(why, rows.len()));
        let unwritten = [row(7, 7)];
        let first = if rows.is_empty() {
            &unwritten[..]
        } else {
            &rows[..1]
        };
        is_set(rt, &cells, first);
    }

    /// Finds of many ids by one call go on from what is held, and leave nothing held.
    fn finds_each<R: Abort>(&mut self, rt: &R, wanted: &mut [WantedId<RowSet>])
        requires { All (λ one. 0 < one.id) wanted.old }
        ensures { self.new ≡ self.old }
    {
        self.view.map().find_each(&mut self.hand, wanted);
        is_same(rt, &self.hand.id(), &None);
    }

    /// A find holds these rows.
    fn pins<R: Abort>(&mut self, rt: &R, id: u64, rows: &[Row])
        requires { 0 < id }
    {
        is_same(rt, &self.hand.pin(self.view.map(), id), &FoundId::Rows);
        self.holds(rt, id, rows);
    }

    /// And so does who has put them, which marks nothing.
    fn has_put<R: Abort>(&mut self, rt: &R, id: u64, rows: &[Row])
        requires { 0 < id }
    {
        is_same(rt, &self.hand.hold(self.view.map(), id), &FoundId::Rows);
        self.holds(rt, id, rows);
        self.view.uses(rt, id, false);
    }

    /// And so does one into a room.
    fn keeps<R: Abort>(&mut self, rt: &R, id: u64, rows: &[Row])
        requires { 0 < id }
    {
        let mut room = RowSet::new();
        let found = self.hand.find_kept(self.view.map(), id, &mut room);
        is_same(rt, &found, &FoundId::Rows);
        is_set(rt, room.as_slice(), rows);
        self.holds(rt, id, rows);
    }

    /// A find holds nothing, and leaves the room as it was.
    fn lacks<R: Abort>(&mut self, rt: &R, id: u64, why: FoundId)
        requires { 0 < id }
        ensures { self.new ≡ self.old }
    {
        let mut room = RowSet::of(&[row(1, 1)]).expect(rt, "a row");
        let found = self.hand.find_kept(self.view.map(), id, &mut room);
        is_same(rt, &found, &why);
        is_set(rt, room.as_slice(), &[row(1, 1)]);
        is_same(rt, &self.hand.id(), &None);
        is_set(rt, self.hand.rows(), &[]);
    }

    fn again<R: Abort>(&mut self, rt: &R, id: u64, wanted: bool) {
        is_same(rt, &self.hand.again(self.view.map(), id), &wanted);
    }

    fn releases(&mut self) {
        self.hand.release(self.view.map());
    }

    /// The hand's reader is granted a claim.
    fn claims<R: Abort>(&mut self, rt: &R, id: u64)
        requires { 0 < id }
    {
        assert!(rt; is_granted(self.hand.request(self.view.map(), id)));
    }

    /// The hand hears of what the writer has seen, and the writer of what the hand has.
    fn tells(&mut self) {
        let told = self.view.note_of_writer();
        self.hand.hear(self.view.map(), told);
        let own = self.hand.note(self.view.map());
        self.view.hears(own);
    }
}

#[test]
fn a_held_set_stays_as_it_is(rt: HostRuntime) {
    let mut holder = Holder::open(&rt, &PAIR);
    holder.view.takes_in(&rt, ONE, &[row(5, 5)]);
    holder.pins(&rt, ONE, &[row(5, 5)]);
    holder.view.updates(&rt, ONE, &[plus(7, 7)], Ok(()));
    holder.again(&rt, ONE, false);
    holder.holds(&rt, ONE, &[row(5, 5)]);
    holder.keeps(&rt, ONE, &[row(5, 5), row(7, 7)]);
    holder.view.evicts(&rt, ONE, Evict::Evicted);
    holder.holds(&rt, ONE, &[row(5, 5), row(7, 7)]);
    holder.lacks(&rt, ONE, FoundId::Absent);
    holder.close();
}

#[test]
fn what_stays_is_found_again(rt: HostRuntime) {
    let mut holder = Holder::open(&rt, &PAIR);
    holder.view.takes_in(&rt, ONE, &[row(5, 5)]);
    holder.view.takes_in(&rt, TWO, &[]);
    holder.again(&rt, ONE, false);
    holder.keeps(&rt, ONE, &[row(5, 5)]);
    holder.view.uses(&rt, ONE, true);
    holder.view.updates(&rt, TWO, &[plus(7, 7)], Ok(()));
    holder.again(&rt, ONE, true);
    holder.again(&rt, TWO, false);
    holder.view.uses(&rt, ONE, false);
    holder.pins(&rt, ONE, &[row(5, 5)]);
    holder.view.uses(&rt, ONE, true);
    holder.keeps(&rt, TWO, &[row(7, 7)]);
    holder.releases();
    holder.again(&rt, TWO, false);
    holder.pins(&rt, TWO, &[row(7, 7)]);
    holder.close();
}

#[test]
fn who_has_put_a_set_holds_it_and_marks_nothing(rt: HostRuntime) {
    let mut holder = Holder::open(&rt, &PAIR);
    holder.view.takes_in(&rt, ONE, &[row(5, 5)]);
    holder.has_put(&rt, ONE, &[row(5, 5)]);
    holder.has_put(&rt, ONE, &[row(5, 5)]);
    holder.view.updates(&rt, ONE, &[plus(7, 7)], Ok(()));
    holder.has_put(&rt, ONE, &[row(5, 5), row(7, 7)]);
    let found = holder.hand.hold(holder.view.map(), TWO);
    is_same(&rt, &found, &FoundId::Absent);
    is_same(&rt, &holder.hand.id(), &None);
    holder.close();
}

#[test]
fn an_open_upquery_leaves_nothing_to_hold(rt: HostRuntime) {
    let mut holder = Holder::open(&rt, &PAIR);
    holder.view.takes_in(&rt, ONE, &[row(5, 5)]);
    holder.pins(&rt, ONE, &[row(5, 5)]);
    holder.claims(&rt, TWO);
    holder.holds(&rt, ONE, &[row(5, 5)]);
    let upquery = holder.view.admit(&rt, TWO);
    holder.lacks(&rt, TWO, FoundId::Pending);
    holder.view.fills(&rt, upquery, &[row(6, 6)]);
    holder.tells();
    holder.keeps(&rt, TWO, &[row(6, 6)]);
    holder.close();
}

#[test]
fn a_hand_finds_and_holds_nothing(rt: HostRuntime) {
    let mut holder = Holder::open(&rt, &PAIR);
    holder.finds(&rt, ONE, FoundId::Absent, &[]);
    holder.view.takes_in(&rt, ONE, &[row(5, 5), row(6, 6)]);
    holder.pins(&rt, ONE, &[row(5, 5), row(6, 6)]);
    holder.finds(&rt, ONE, FoundId::Rows, &[row(5, 5), row(6, 6)]);
    holder.view.uses(&rt, ONE, true);
    holder.view.claims(&rt, TWO);
    let upquery = holder.view.admit(&rt, TWO);
    holder.finds(&rt, TWO, FoundId::Pending, &[]);
    holder.view.fills(&rt, upquery, &[]);
    holder.finds(&rt, TWO, FoundId::Rows, &[]);
    holder.close();
}

// One slot for the id, one that is held, and one for the write.
#[test]
fn a_held_set_does_not_come_back(rt: HostRuntime) {
    let mut holder = Holder::open(&rt, &IdShape { slots: 3, ..PAIR });
    let mut had = RowSet::new();
    holder.view.takes_in(&rt, ONE, &[row(1, 1)]);
    holder.pins(&rt, ONE, &[row(1, 1)]);
    let nothing = Reclaimed::Nothing;
    holder
        .view
        .updates_reclaiming(&rt, ONE, &[plus(2, 2)], &mut had, nothing);
    holder.view.reaps(&rt, &mut had, Reaped::Held);
    holder.holds(&rt, ONE, &[row(1, 1)]);
    holder.releases();
    holder.view.reaps(&rt, &mut had, Reaped::Set);
    is_set(&rt, had.as_slice(), &[row(0, ONE), row(1, 1)]);
    holder.close();
}

#[test]
fn many_ids_are_found_by_one_call(rt: HostRuntime) {
    let mut holder = Holder::open(&rt, &PAIR);
    holder.view.takes_in(&rt, ONE, &[row(5, 5)]);
    holder.view.takes_in(&rt, TWO, &[row(6, 6), row(7, 7)]);
    holder.view.claims(&rt, 3);
    holder.pins(&rt, ONE, &[row(5, 5)]);
    let mut wanted = [
        WantedId::of(TWO, RowSet::new()),
        WantedId::of(4, RowSet::new()),
        WantedId::of(ONE, RowSet::new()),
        WantedId::of(TWO, RowSet::new()),
    ];
    holder.finds_each(&rt, &mut wanted);
    is_set(&rt, wanted[0].rows.as_slice(), &[row(6, 6), row(7, 7)]);
    is_set(&rt, wanted[2].rows.as_slice(), &[row(5, 5)]);
    is_set(&rt, wanted[3].rows.as_slice(), &[row(6, 6), row(7, 7)]);
    is_same(&rt, &wanted[0].found, &FoundId::Rows);
    is_same(&rt, &wanted[1].found, &FoundId::Absent);
    is_set(&rt, wanted[1].rows.as_slice(), &[]);
    let upquery = holder.view.admit(&rt, 3);
    let mut more = [WantedId::of(3, RowSet::new())];
    holder.finds_each(&rt, &mut more);
    is_same(&rt, &more[0].found, &FoundId::Pending);
    holder.view.fills(&rt, upquery, &[]);
    holder.view.uses(&rt, ONE, true);
    holder.close();
}

fn wanted(id: u64) -> WantedId<RowSet>
    requires { 0 < id }
    ensures { 0 < result.id }
{
    WantedId::of(id, RowSet::new())
}

// More than are found at a time.
#[test]
fn eighteen_ids_are_found_by_one_call(rt: HostRuntime) {
    let mut holder = Holder::open(&rt, &PAIR);
    for id in 1..8 {
        holder.view.takes_in(&rt, id, &[row(id, id)]);
    }
    let mut first = [
        wanted(1),
        wanted(2),
        wanted(3),
        wanted(4),
        wanted(5),
        wanted(6),
        wanted(7),
        wanted(8),
        wanted(9),
        wanted(1),
        wanted(2),
        wanted(3),
        wanted(4),
        wanted(5),
        wanted(6),
        wanted(7),
        wanted(8),
        wanted(3),
    ];
    holder.finds_each(&rt, &mut first);
    for one in &first {
        if one.id < 8 {
            is_same(&rt, &one.found, &FoundId::Rows);
            is_set(&rt, one.rows.as_slice(), &[row(one.id, one.id)]);
        } else {
            is_same(&rt, &one.found, &FoundId::Absent);
            is_set(&rt, one.rows.as_slice(), &[]);
        }
    }
    holder.close();
}
