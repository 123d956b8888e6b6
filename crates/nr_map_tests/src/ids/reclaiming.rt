//! Sets that come back.
use crate::ids::view::{SMALL, View, is_set, plus, row};
use nr_idmap::{Evict, IdShape, Reaped, Reclaimed};
use nr_model::RowSet;

#[test]
fn each_set_comes_back_with_its_tag(rt: HostRuntime) {
    // One slot for the id, and one for the write.
    let mut view = View::open(&rt, &IdShape { slots: 2, ..SMALL });
    let mut had = RowSet::new();
    view.claims(&rt, 5);
    view.fills_reclaiming(&rt, 5, &[row(1, 1)], &mut had, Reclaimed::Nothing);
    view.updates_reclaiming(&rt, 5, &[plus(2, 2)], &mut had, Reclaimed::Nothing);
    view.reaps(&rt, &mut had, Reaped::Set);
    is_set(&rt, had.as_slice(), &[row(0, 5), row(1, 1)]);
    // The slot was reaped, so it gives out nothing, and the next one what the update put.
    view.replaces_reclaiming(&rt, 5, &[row(9, 9)], &mut had, Reclaimed::Nothing);
    view.replaces_reclaiming(&rt, 5, &[row(8, 8)], &mut had, Reclaimed::Set);
    is_set(&rt, had.as_slice(), &[row(0, 5), row(1, 1), row(2, 2)]);
    view.evicts(&rt, 5, Evict::Evicted);
    view.close();
}
