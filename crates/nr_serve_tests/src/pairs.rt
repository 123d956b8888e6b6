//! Two clients in threads of their own, whose gate lets neither pass before the other has come.
ghost use Rattle.std.specs.Prelude.{◌≡◌};

use crate::loads::Meeting;
use crate::opened::{end_client, fills};
use crate::parts::Parts;
use crate::same::is_same;
use nr_map::{Reader, ReaderMap};
use nr_model::RowSet;
use nr_serve::{Client, Got, Lobby};
use nr_trigger::{Poster, Triggers};
use std::process::Abort;
use std::sync::Wait;
use std::thread::{self, Threads};

/// What the threads of both clients share.
#[derive(Drop)]
struct Place {
    map: ReaderMap,
    triggers: Triggers,
    lobby: Lobby,
    gate: Meeting,
    ghost keys: { map.shape.keys ≡ 2 },
}

/// A client that is to come there.
#[derive(Drop)]
struct Coming<'a> {
    place: &'a Place,
    reader: Reader,
    poster: Poster,
    ghost own: { (reader.table ≡ place.now.map) × (poster.queue ≡ place.now.triggers.id) × (poster.keys ≡ 2) },
}

impl Coming<'_> {
    // One get of key 0, of three tries.
    fn gets_once<R: Wait>(self, rt: &R) -> Got {
        let Coming {
            place,
            reader,
            poster,
        } = self;
        let Place {
            map,
            triggers,
            lobby,
            gate,
        } = place;
        let mut client = Client::open(map, reader, triggers, poster, lobby, gate);
        let got = client.get(rt, 0, 3, &mut RowSet::new());
        end_client(client);
        got
    }
}

// How both gets end, where a second thread can be started.
fn get_both<R: Threads + Wait + Sync>(
    rt: &R,
    one: Coming<'_>,
    two: Coming<'_>,
) -> Option<(Got, Got)> {
    thread::scope(thread::scope_env(), rt, |scope| -> Option<(Got, Got)> {
        let Ok(other) = scope.spawn(move || two.gets_once(rt)) else {
            return None;
        };
        let got = one.gets_once(rt);
        Some((got, other.join(rt)))
    })
}

fn both_pass<R: Threads + Wait + Sync + Abort>(rt: &R, parts: Parts) {
    let Parts {
        map,
        triggers,
        lobby,
        mut writer,
        taker: _taker,
        one: (mut reader, poster),
        two: (other_reader, other_poster),
    } = parts;
    is_same(rt, &fills(&map, &mut reader, &mut writer), &true);
    let place = Place {
        map,
        triggers,
        lobby,
        gate: Meeting::new(),
    };
    let one = Coming {
        place: &place,
        reader,
        poster,
    };
    let two = Coming {
        place: &place,
        reader: other_reader,
        poster: other_poster,
    };
    let got = get_both(rt, one, two);
    is_same(rt, &got, &Some((Got::Rows, Got::Rows)));
    is_same(rt, &place.gate.are_answered(1), &true);
}

#[test]
fn two_clients_are_served_at_the_same_time(rt: HostRuntime) {
    both_pass(&rt, Parts::open(&rt, 4));
}
