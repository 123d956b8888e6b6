//! The count that a client sleeps by.
ghost use Rattle.std.specs.Prelude.{◌≡◌, ◌<◌, ◌⊎◌, IfErr, IfOk, slice_index};
ghost use Rattle.nr_ids.specs.Groups.{group_of};
ghost use Rattle.nr_serve.specs.Counts.{OnlyLooks, closed_at, group_at};
ghost use Rattle.nr_idserve.specs.IdGets.{AwaitsRaise};

use crate::answers::Missed;
use crate::hands::IdHands;
use crate::service::IdService;
use nr_serve::{Limit, TooLate, Watched};
use std::snapshot::Snapshot;
use std::sync::Wait;

/// The count of an id's group, and what the client had in its hands when it read that.
#[derive(Drop)]
pub(crate) struct CountedId {
    id: u64,
    group: u32,
    count: u64,
    hands: Snapshot<IdHands>,
}

/// The count of this id's group, for a client that makes a try then.
#[inline(always)]
pub(crate) fn count_for(
    service: &IdService,
    lobby: &mut Watched<'_>,
    id: u64,
    hands: &IdHands,
) -> CountedId
    ensures looks { OnlyLooks lobby.old lobby.new }
    ensures found { slice_index lobby.new.seen (group_at result.group) ≡ result.count }
    ensures id { (result.id ≡ id) × (result.group ≡ group_of service.now.map.directory.plan id) }
    ensures hands { result.hands.value ≡ hands.now }
{
    let group = service.map().group_of(id);
    CountedId {
        id,
        group,
        count: lobby.group_count(group),
        hands: Snapshot::of(hands),
    }
}

/// Sleeps after a try that was made since the count was read, and after which the dataflow is to raise the
/// id's group: while the group's count is at most that and the lobby isn't closed, within the limit.
pub(crate) fn wait_past<L: Limit<R>, R: Wait>(
    rt: &R,
    service: &IdService,
    lobby: &mut Watched<'_>,
    counted: &CountedId,
    missed: &Missed,
    hands: &IdHands,
    limit: &L,
) -> Result<(), TooLate>
    requires { AwaitsRaise service.now.queue.capacity counted.now.id counted.now.hands.value hands.now missed.now }
    ensures looks { OnlyLooks lobby.old lobby.new }
    ensures past { IfOk result (λ _. (counted.now.count < slice_index lobby.new.seen (group_at counted.now.group)) ⊎ (0 < slice_index lobby.new.seen closed_at)) }
    ensures late { IfErr result (λ late. L.lapses limit.now late) }
{
    let _ = service;
    let _ = missed;
    let _ = hands;
    lobby.wait_within(rt, counted.group, counted.count, limit)
}
