//! Readers hold sets and let them go beside a writer that updates. What is asserted does not depend on how the
//! threads' steps fall.
ghost use Rattle.std.specs.Prelude.{◌≡◌, ◌<◌};

use crate::calls::{Told, minus, plus, updates};
use crate::held::{pin, release};
use crate::same::is_same;
use crate::worked::{Worked, next};
use nr_map::{Reader, ReaderMap, Shape, Writer};
use std::process::Abort;
use std::thread::{Threads, join};

const TURNS: u32 = 1_000;

// Pins key 0 and releases it again and again: how often it held a set.
fn pin_often(map: &ReaderMap, mut reader: Reader) -> u32
    requires own { reader.table ≡ map.now }
    requires key { 0 < map.now.shape.keys }
{
    let mut held = 0;
    for _ in 0..TURNS {
        reader = match pin(map, reader, 0) {
            Ok(pin) => {
                held = u32::min(held, TURNS) + 1;
                release(map, pin)
            }
            Err(reader) => reader,
        };
    }
    held
}

// Adds a row and takes it away again and again: how often it was done.
fn update_often(map: &ReaderMap, mut writer: Writer) -> u32
    requires own { writer.table ≡ map.now }
    requires key { 0 < map.now.shape.keys }
{
    let mut done = 0;
    for turn in 0..TURNS {
        let delta = if turn % 2 == 0 {
            plus(1, 1)
        } else {
            minus(1, 1)
        };
        if updates(map, &mut writer, 0, &[delta]) {
            done = u32::min(done, TURNS) + 1;
        }
    }
    done
}

fn two_pin<R: Threads + Sync>(rt: &R, map: &ReaderMap, one: Reader, two: Reader) -> (u32, u32)
    requires one { one.table ≡ map.now }
    requires two { two.table ≡ map.now }
    requires key { 0 < map.now.shape.keys }
{
    join(
        rt,
        move || -> u32
            requires { (one.table ≡ map.now) × (0 < map.now.shape.keys) }
        { pin_often(map, one) },
        move || -> u32
            requires { (two.table ≡ map.now) × (0 < map.now.shape.keys) }
        { pin_often(map, two) },
    )
}

fn three_pin<R: Threads + Sync>(
    rt: &R,
    map: &ReaderMap,
    one: Reader,
    two: Reader,
    three: Reader,
) -> (u32, (u32, u32))
    requires one { one.table ≡ map.now }
    requires two { two.table ≡ map.now }
    requires three { three.table ≡ map.now }
    requires key { 0 < map.now.shape.keys }
{
    join(
        rt,
        move || -> u32
            requires { (one.table ≡ map.now) × (0 < map.now.shape.keys) }
        { pin_often(map, one) },
        move || -> (u32, u32)
            requires { (two.table ≡ map.now) × (three.table ≡ map.now) × (0 < map.now.shape.keys) }
        { two_pin(rt, map, two, three) },
    )
}

fn update_beside<R: Threads + Sync>(
    rt: &R,
    map: &ReaderMap,
    writer: Writer,
    one: Reader,
    two: Reader,
    three: Reader,
) -> (u32, (u32, (u32, u32)))
    requires writer { writer.table ≡ map.now }
    requires one { one.table ≡ map.now }
    requires two { two.table ≡ map.now }
    requires three { three.table ≡ map.now }
    requires key { 0 < map.now.shape.keys }
{
    join(
        rt,
        move || -> u32
            requires { (writer.table ≡ map.now) × (0 < map.now.shape.keys) }
        { update_often(map, writer) },
        move || -> (u32, (u32, u32))
            requires { (one.table ≡ map.now) × (two.table ≡ map.now) × (three.table ≡ map.now) × (0 < map.now.shape.keys) }
        { three_pin(rt, map, one, two, three) },
    )
}

// A map of two keys with three readers, each of which may have a word of its own.
fn with_three<R: Abort + AllocGlobal>(rt: &R, words: bool) -> (Worked, Reader, Reader)
    ensures keys { let (worked, _, _) = result in worked.shape.keys ≡ 2 }
    ensures readers { let (worked, one, two) = result in (one.table ≡ worked) × (two.table ≡ worked) }
{
    let shape = Shape {
        keys: 2,
        slots: 6,
        readers: 3,
        first_count: u64::MAX,
        first_number: 0,
        rows: 1,
    };
    let opened = if words {
        ReaderMap::open_large(rt.alloc(), &shape)
    } else {
        ReaderMap::open_with(rt.alloc(), &shape)
    };
    let (map, writer, mut readers) = opened.expect(rt, "a map");
    let three = next(rt, &map, &mut readers);
    let two = next(rt, &map, &mut readers);
    let reader = next(rt, &map, &mut readers);
    let worked = Worked {
        map,
        writer,
        reader,
    };
    (worked, two, three)
}

fn are_all_done<R: Abort + AllocGlobal + Threads + Sync>(rt: &R, words: bool) {
    let (mut worked, two, three) = with_three(rt, words);
    worked.asks(rt, 0, Told::Send(0, 0));
    worked.fills(rt, 0, 0, &[]);
    let Worked {
        map,
        writer,
        reader: one,
    } = worked;
    is_same(
        rt,
        &update_beside(rt, &map, writer, one, two, three),
        &(TURNS, (TURNS, (TURNS, TURNS))),
    );
}

#[test]
fn updates_beside_pins_are_all_done(rt: HostRuntime) {
    are_all_done(&rt, false);
}

#[test]
fn updates_beside_pins_by_words_are_all_done(rt: HostRuntime) {
    are_all_done(&rt, true);
}
