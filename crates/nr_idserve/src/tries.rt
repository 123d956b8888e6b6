//! The tries of a get by id.
ghost use Rattle.std.specs.Prelude.{◌≡◌, ◌<◌, IfErr, IfOk, None, Some};
ghost use Rattle.nr_ids.specs.Groups.{group_of};
ghost use Rattle.nr_serve.specs.Counts.{OnlyLooks};
ghost use Rattle.nr_serve.specs.Waits.{SleepsIf};
ghost use Rattle.nr_idserve.specs.IdHands.{IsReadyFor, PostsFirst, PostsKept};
ghost use Rattle.nr_idserve.specs.IdGets.{AwaitsRaise, GetsIdInTime, IsAwaited, MissesOnce, RequestsOnce, TriesOnce};
ghost use Rattle.nr_serve.specs.Rings.{RingsFor};
ghost use Rattle.nr_idserve.specs.IdWaits.{GetsIdSleeping};

use crate::answers::{GotId, Missed, TriedId};
use crate::hands::IdHands;
use crate::service::IdService;
use crate::watched::{CountedId, count_for, wait_past};
use nr_idmap::{Claim, FoundId, Requested};
use nr_model::RowRoom;
use nr_serve::{Limit, TooLate, Watched};
use nr_trigger::Upquery;
use std::sync::Wait;

// Puts what the claim names at the back of the queue, and spends the claim. It is kept where the queue was
// full.
fn post_or_keep<R: Wait>(
    rt: &R,
    service: &IdService,
    lobby: &mut Watched<'_>,
    hands: &mut IdHands,
    claim: Claim,
)
    requires own { hands.old.poster.queue ≡ service.now.queue.id }
    requires keys { 0 < hands.old.poster.keys }
    requires none { hands.old.kept ≡ None }
    ensures posts { PostsKept service.now.queue.capacity (Some claim) hands.old.poster hands.new.kept hands.new.poster }
    ensures reader { hands.new.reader ≡ hands.old.reader }
    ensures rings { RingsFor hands.old.poster lobby.old hands.new.poster lobby.new }
{
    let upquery = Upquery {
        key: 0,
        number: claim.id(),
    };
    match service
        .claims()
        .post_upquery(rt, &mut hands.poster, upquery)
    {
        Ok(()) => {
            claim.into_id();
            lobby.ring(rt);
        }
        Err(_) => hands.keep(claim),
    }
}

// Posts the claim that is kept, which stays where the queue is full.
#[inline(always)]
#[tactic(auto, using(nr_serve::proofs::Ringing::rings_same))]
fn post_kept<R: Wait>(rt: &R, service: &IdService, lobby: &mut Watched<'_>, hands: &mut IdHands)
    requires { IsReadyFor service.now.map service.now.queue hands.old }
    ensures ready { IsReadyFor service.now.map service.now.queue hands.new }
    ensures posts { PostsFirst service.now.queue.capacity hands.old hands.new }
    ensures rings { RingsFor hands.old.poster lobby.old hands.new.poster lobby.new }
{
    if let Some(claim) = hands.kept.take() {
        post_or_keep(rt, service, lobby, hands, claim);
    }
}

// Requests an id that has no way, unless a claim is kept, and posts the claim that is granted.
#[inline(never)]
#[tactic(auto, using(nr_serve::proofs::Ringing::rings_same))]
fn request<R: Wait>(
    rt: &R,
    service: &IdService,
    lobby: &mut Watched<'_>,
    id: u64,
    hands: &mut IdHands,
) -> Missed
    requires ready { IsReadyFor service.now.map service.now.queue hands.old }
    requires id { 0 < id }
    ensures ready { IsReadyFor service.now.map service.now.queue hands.new }
    ensures requests { RequestsOnce service.now.queue.capacity id hands.old hands.new result }
    ensures rings { RingsFor hands.old.poster lobby.old hands.new.poster lobby.new }
{
    if hands.kept.is_some() {
        return Missed::NotRequested;
    }
    match service.map().request(&mut hands.reader, id) {
        Requested::Granted(claim) => {
            post_or_keep(rt, service, lobby, hands, claim);
            Missed::Claimed
        }
        Requested::Named(_) => Missed::Named,
        Requested::Busy => Missed::Busy,
        Requested::Outrun => Missed::Outrun,
        Requested::Worn => Missed::Worn,
    }
}

// One try: posts the claim that is kept, and finds the id, by which the caller's room has the rows, if it has
// any; requests it where it is absent.
#[inline(always)]
fn try_once<R: RowRoom, W: Wait>(
    rt: &W,
    service: &IdService,
    lobby: &mut Watched<'_>,
    id: u64,
    hands: &mut IdHands,
    rows: &mut R,
) -> TriedId
    requires ready { IsReadyFor service.now.map service.now.queue hands.old }
    requires id { 0 < id }
    ensures ready { IsReadyFor service.now.map service.now.queue hands.new }
    ensures tries { TriesOnce R.shows service.now.queue.capacity id hands.old rows.old hands.new rows.new result }
    ensures rings { RingsFor hands.old.poster lobby.old hands.new.poster lobby.new }
{
    post_kept(rt, service, lobby, hands);
    match service.map().find(&mut hands.reader, id, rows) {
        FoundId::Rows => TriedId::Rows,
        FoundId::Pending => TriedId::Missed(Missed::Pending),
        FoundId::Moved | FoundId::Absent => {
            TriedId::Missed(request(rt, service, lobby, id, hands))
        }
    }
}

// After a try that found no rows: sleeps until the count has gone past what it was before the try, if
// another try is to follow, no claim is kept and the dataflow is to raise the group.
fn sleep_if<L: Limit<R>, R: Wait>(
    rt: &R,
    service: &IdService,
    lobby: &mut Watched<'_>,
    tries_left: u32,
    counted: &CountedId,
    missed: &Missed,
    hands: &IdHands,
    limit: &L,
) -> Result<(), TooLate>
    requires { MissesOnce service.now.queue.capacity counted.now.id counted.now.hands.value hands.now missed.now }
    ensures looks { OnlyLooks lobby.old lobby.new }
    ensures late { IfErr result (λ late. L.lapses limit.now late) }
    ensures sleeps { IfOk result (λ _. SleepsIf tries_left counted.now.count counted.now.group (IsAwaited missed.now) hands.now.kept lobby.new) }
    ensures slept { IfErr result (λ _. (0 < tries_left) × AwaitsRaise service.now.queue.capacity counted.now.id counted.now.hands.value hands.now missed.now) }
{
    if tries_left > 0 && missed.is_awaited() && hands.kept.is_none() {
        wait_past(rt, service, lobby, counted, missed, hands, limit)?;
    }
    Ok(())
}

/// Tries to get the rows of an id, and sleeps in the lobby between two tries where the dataflow is to raise
/// the id's group, until the group's count has gone past what it was before the try. A sleep that times out
/// ends the get.
pub(crate) fn get_by_tries<R: RowRoom, L: Limit<W>, W: Wait>(
    rt: &W,
    service: &IdService,
    lobby: &mut Watched<'_>,
    limit: &L,
    id: u64,
    tries: u32,
    hands: &mut IdHands,
    rows: &mut R,
) -> Result<GotId, TooLate>
    requires ready { IsReadyFor service.now.map service.now.queue hands.old }
    requires id { 0 < id }
    ensures ready { IsReadyFor service.now.map service.now.queue hands.new }
    ensures gets { GetsIdInTime R.shows (record { capacity = service.now.queue.capacity; id = id; tries = tries }) hands.old rows.old hands.new rows.new result }
    ensures waits { GetsIdSleeping R.shows (record { capacity = service.now.queue.capacity; id = id; tries = tries }) (group_of service.now.map.directory.plan id) hands.old rows.old lobby.old hands.new rows.new lobby.new result }
    ensures late { IfErr result (λ late. L.lapses limit.now late) }
    ensures at_once { tries ≡ 0 → hands.new ≡ hands.old }
    ensures rings { RingsFor hands.old.poster lobby.old hands.new.poster lobby.new }
{
    for i in 0..tries {
        let counted = count_for(service, lobby, id, hands);
        let missed = match try_once(rt, service, lobby, id, hands, rows) {
            TriedId::Rows => return Ok(GotId::Rows),
            TriedId::Missed(missed) => missed,
        };
        sleep_if(
            rt,
            service,
            lobby,
            tries - i - 1,
            &counted,
            &missed,
            hands,
            limit,
        )?;
    }
    Ok(GotId::GaveUp)
}
