//! Lobbies without clients.
ghost use Rattle.std.specs.Prelude.{◌≡◌};

use crate::opened::opened;
use crate::same::is_same;
use nr_serve::{Guest, Lobby, NoLimit, Raiser, Watched};
use nr_trigger::{Taker, Triggers};
use std::process::Abort;
use std::sync::Wait;

fn counts<R: Abort + Wait>(rt: &R, lobby: &Lobby, count: u64, is_closed: bool) {
    is_same(
        rt,
        &(lobby.count(rt), lobby.is_closed(rt)),
        &(count, is_closed),
    );
}

fn counts_and_closes<R: Abort + Wait>(rt: &R, lobby: &Lobby) {
    counts(rt, lobby, 0, false);
    lobby.raise(rt);
    is_same(rt, &lobby.wait_past(rt, 0), &1);
    counts(rt, lobby, 1, false);
    lobby.close(rt);
    is_same(rt, &lobby.wait_past(rt, 7), &1);
    counts(rt, lobby, 1, true);
}

#[test]
fn a_lobby_counts_and_closes(rt: HostRuntime) {
    let lobby = Lobby::open(rt.alloc()).expect(&rt, "a lobby");
    counts_and_closes(&rt, &lobby);
}

// The same by one guest.
fn counts_and_closes_as<R: Abort + Wait>(rt: &R, lobby: &Lobby) {
    let mut guest = lobby.guest();
    lobby.raise_as(rt, &mut guest);
    is_same(rt, &lobby.count_as(&mut guest), &1);
    is_same(rt, &lobby.wait_past_as(rt, &mut guest, 0), &1);
    is_same(rt, &lobby.is_closed_as(&mut guest), &false);
    lobby.close_as(&mut guest);
    is_same(rt, &lobby.wait_past_as(rt, &mut guest, 7), &1);
    is_same(rt, &lobby.is_closed_as(&mut guest), &true);
}

#[test]
fn a_guest_counts_and_closes(rt: HostRuntime) {
    let lobby = Lobby::open(rt.alloc()).expect(&rt, "a lobby");
    counts_and_closes_as(&rt, &lobby);
}

fn counts_for<R: Abort>(rt: &R, lobby: &Lobby, guest: &mut Guest, key: u32, count: u64)
    requires { guest.old.lobby ≡ lobby.now }
    ensures { guest.new.lobby ≡ lobby.now }
{
    is_same(rt, &lobby.count_for(guest, key), &count);
}

fn raises_for_a_key<R: Abort + Wait>(rt: &R, lobby: &Lobby) {
    let mut guest = lobby.guest();
    lobby.raise_for(rt, &mut guest, 3);
    counts_for(rt, lobby, &mut guest, 67, 1);
    counts_for(rt, lobby, &mut guest, 4, 0);
    lobby.raise(rt);
    is_same(rt, &lobby.wait_past_for(rt, &mut guest, 67, 1), &2);
    counts(rt, lobby, 2, false);
}

// A raise for key 3 is one of its group, which has key 67 too, and one of the whole lobby.
#[test]
fn a_raise_for_a_key_counts_for_its_group_and_the_whole(rt: HostRuntime) {
    let lobby = Lobby::open(rt.alloc()).expect(&rt, "a lobby");
    raises_for_a_key(&rt, &lobby);
}

// What is raised for a key, and that a source failed, counts for its group.
fn is_raised<R: Abort + Wait>(rt: &R, watched: &mut Watched<'_>, raiser: &mut Raiser<'_>) {
    raiser.raise_for(rt, 3);
    raiser.fail_for(rt, 67);
    is_same(rt, &watched.group_count(3), &2);
    is_same(rt, &watched.failures_for(3), &1);
    assert!(rt; watched.wait_within(rt, 3, 1, &NoLimit).is_ok());
}

fn is_told<R: Abort + Wait>(rt: &R, watched: &mut Watched<'_>, raiser: &mut Raiser<'_>) {
    raiser.tell(rt);
    watched.wait_for_telling(rt, 0);
    is_same(rt, &watched.tellings(), &1);
    is_same(rt, &watched.is_closed(), &false);
}

// The bell was rung before the dataflow would sleep.
fn is_rung<R: Abort + Wait>(
    rt: &R,
    triggers: &Triggers,
    taker: &mut Taker,
    watched: &mut Watched<'_>,
    raiser: &mut Raiser<'_>,
)
    requires own { taker.old.queue ≡ triggers.now.id }
{
    let rung = raiser.rings(taker);
    watched.ring(rt);
    match triggers.take(rt, taker) {
        None => raiser.wait_for_ring(rt, &rung, taker),
        Some(_trigger) => panic!(rt; "no ticket"),
    }
}

// A client and a dataflow of another crate have a guest each.
#[test]
fn a_lobby_serves_another_crate(rt: HostRuntime) {
    let (service, tokens) = opened(&rt, 4);
    let mut taker = tokens.into_taker();
    let mut watched = Watched::of(service.lobby());
    let mut raiser = Raiser::of(service.lobby());
    is_raised(&rt, &mut watched, &mut raiser);
    is_told(&rt, &mut watched, &mut raiser);
    is_rung(
        &rt,
        service.triggers(),
        &mut taker,
        &mut watched,
        &mut raiser,
    );
}
