//! The numbers that stand for answers. C has them as constants of the same names, and each answer
//! has one of its own, whichever call it answers.
ghost use Rattle.std.specs.Prelude.{◌≡◌};
ghost use Rattle.nr_c.specs.Codes.{cancel_code, evict_code, fill_code, fill_reclaiming_code, found_code, kind_code, no_slot_code, post_code, reaped_code, reclaimed_code, replace_code, replace_reclaiming_code, take_code, update_code, update_reclaiming_code};

use nr_map::{
    Cancel, Evict, FillFault, Found, KeyKind, NoSlot, Reaped, Reclaimed, ReplaceFault, UpdateFault,
};
use nr_trigger::{PostFault, TakeFault};

/// To a find: the rows of a filled key.
pub const NR_ROWS: u32 = 0;

/// To a find: the key is not filled.
pub const NR_HOLE: u32 = 1;

/// To a request: nobody asked before, so the caller sends the upquery.
pub const NR_SEND: u32 = 2;

/// To a request: an upquery is under way.
pub const NR_WAITING: u32 = 3;

/// To a request: the key is filled.
pub const NR_FILLED: u32 = 4;

/// To a fill, an update or a replacement: the rows stand. To what opens: the handle is live.
pub const NR_DONE: u32 = 5;

/// To a fill: nobody asked for the key.
pub const NR_NOT_ASKED: u32 = 6;

/// To a fill: the key is filled.
pub const NR_ALREADY: u32 = 7;

/// To a fill: the request that it answers was taken back.
pub const NR_STALE: u32 = 8;

/// To an update or a replacement: the key is not filled.
pub const NR_DROPPED: u32 = 9;

/// To an update: a row to be taken away is not there.
pub const NR_NO_ROW: u32 = 10;

/// To a fill, an update or a replacement: more rows than a key may have.
pub const NR_TOO_MANY: u32 = 11;

/// To a fill, an update or a replacement: there is no slot, and readers hold some.
pub const NR_NO_SLOT: u32 = 12;

/// To an eviction: the key was filled and is a hole now.
pub const NR_EVICTED: u32 = 13;

/// To a cancel: the key was asked and is a hole now, with the next number.
pub const NR_CANCELLED: u32 = 14;

/// To an eviction: the key was not filled. To a cancel: the key was not asked. To a reap: no set waits.
/// To what asks for the next set that remains: all have come out.
pub const NR_NOTHING: u32 = 15;

/// To a cancel: the key is asked with the last number.
pub const NR_WORN: u32 = 16;

/// To a look at a key's state: an upquery is under way.
pub const NR_ASKED: u32 = 17;

/// To an update: its batch has no rows, or more than 64.
pub const NR_BAD_BATCH: u32 = 18;

/// To a fill or a replacement: its rows are not in ascending order.
pub const NR_NOT_SORTED: u32 = 19;

/// To an opening: a size is out of its limits.
pub const NR_BAD_SIZE: u32 = 20;

/// To an opening: there is no memory.
pub const NR_NO_MEMORY: u32 = 21;

/// To the opening of a reader: all readers have handles.
pub const NR_NO_READER: u32 = 22;

/// To an opening of a poster: each poster had a handle already.
pub const NR_NO_POSTER: u32 = 23;

/// To a post: the queue is full.
pub const NR_FULL: u32 = 24;

/// To a take: the queue is empty.
pub const NR_EMPTY: u32 = 25;

/// To a find again: the key has not, or no more, the set that the reader holds.
pub const NR_OTHER: u32 = 26;

/// To a call that takes a key: the map, or the queue, has no such key.
pub const NR_NO_KEY: u32 = 27;

/// To a call of a reader that holds nothing: it holds a set.
pub const NR_HOLDING: u32 = 28;

/// To a call of a reader that holds a set: it holds nothing.
pub const NR_NOT_HOLDING: u32 = 29;

/// To a fill, an update or a replacement: there is no slot, since each is a filled key's.
pub const NR_ALL_FILLED: u32 = 30;

/// To a call whose handle leads nowhere: it was closed, or never opened. To a find without rows and to a
/// request: the writer was closed.
pub const NR_CLOSED: u32 = 31;

/// To an opening: the handle leads somewhere already.
pub const NR_LIVE: u32 = 32;

/// To a post or a take: another thread is within a call of its own.
pub const NR_IN_THE_WAY: u32 = 33;

/// To a call that gives sets out: one came out, and the caller's cells show it. To one that fills or
/// changes a key: the rows stand too.
pub const NR_GIVEN: u32 = 34;

/// To a reap: readers hold all the sets that wait.
pub const NR_HELD: u32 = 35;

/// To what takes a map apart: some of its readers are not back.
pub const NR_READERS_OUT: u32 = 36;

/// To a request by id, or an admission: the id has a way.
pub const NR_NAMED: u32 = 37;

/// To a call by id: a row's first number is 0.
pub const NR_BAD_ROW: u32 = 38;

/// To a call with an upquery: another map opened it.
pub const NR_STRANGER: u32 = 39;

/// To a choice by id: each way of the group has an open upquery.
pub const NR_ALL_ASKED: u32 = 40;

/// To a value that a cache is given: it is the caller's own.
pub const NR_OWN: u32 = 41;

/// The number of a find's answer.
pub fn of_found(found: Found) -> u32
    ensures { result ≡ found_code found }
{
    match found {
        Found::Rows => NR_ROWS,
        Found::Hole => NR_HOLE,
    }
}

/// The number of a call that found no slot.
pub fn of_no_slot(counts: NoSlot) -> u32
    ensures { result ≡ no_slot_code counts }
{
    if counts.held == 0 {
        NR_ALL_FILLED
    } else {
        NR_NO_SLOT
    }
}

/// The number of a fill's answer.
pub fn of_fill(answer: Result<(), FillFault>) -> u32
    ensures { result ≡ fill_code answer }
{
    match answer {
        Ok(()) => NR_DONE,
        Err(FillFault::NotAsked) => NR_NOT_ASKED,
        Err(FillFault::Already) => NR_ALREADY,
        Err(FillFault::Stale) => NR_STALE,
        Err(FillFault::NoSlot(counts)) => of_no_slot(counts),
    }
}

/// The number of an update's answer.
pub fn of_update(answer: Result<(), UpdateFault>) -> u32
    ensures { result ≡ update_code answer }
{
    match answer {
        Ok(()) => NR_DONE,
        Err(UpdateFault::Dropped) => NR_DROPPED,
        Err(UpdateFault::NoRow) => NR_NO_ROW,
        Err(UpdateFault::TooMany) => NR_TOO_MANY,
        Err(UpdateFault::NoSlot(counts)) => of_no_slot(counts),
    }
}

/// The number of a replacement's answer.
pub fn of_replace(answer: Result<(), ReplaceFault>) -> u32
    ensures { result ≡ replace_code answer }
{
    match answer {
        Ok(()) => NR_DONE,
        Err(ReplaceFault::Dropped) => NR_DROPPED,
        Err(ReplaceFault::NoSlot(counts)) => of_no_slot(counts),
    }
}

/// The number of what a call gave out that put its set.
pub fn of_reclaimed(given: Reclaimed) -> u32
    ensures { result ≡ reclaimed_code given }
{
    match given {
        Reclaimed::Set => NR_GIVEN,
        Reclaimed::Nothing => NR_DONE,
    }
}

/// The number of a reclaiming fill's answer.
pub fn of_fill_reclaiming(answer: Result<Reclaimed, FillFault>) -> u32
    ensures { result ≡ fill_reclaiming_code answer }
{
    match answer {
        Ok(given) => of_reclaimed(given),
        Err(fault) => of_fill(Err(fault)),
    }
}

/// The number of a reclaiming update's answer.
pub fn of_update_reclaiming(answer: Result<Reclaimed, UpdateFault>) -> u32
    ensures { result ≡ update_reclaiming_code answer }
{
    match answer {
        Ok(given) => of_reclaimed(given),
        Err(fault) => of_update(Err(fault)),
    }
}

/// The number of a reclaiming replacement's answer.
pub fn of_replace_reclaiming(answer: Result<Reclaimed, ReplaceFault>) -> u32
    ensures { result ≡ replace_reclaiming_code answer }
{
    match answer {
        Ok(given) => of_reclaimed(given),
        Err(fault) => of_replace(Err(fault)),
    }
}

/// The number of a reap's answer.
pub fn of_reaped(answer: Reaped) -> u32
    ensures { result ≡ reaped_code answer }
{
    match answer {
        Reaped::Set => NR_GIVEN,
        Reaped::Held => NR_HELD,
        Reaped::Nothing => NR_NOTHING,
    }
}

/// The number of an eviction's answer.
pub fn of_evict(answer: Evict) -> u32
    ensures { result ≡ evict_code answer }
{
    match answer {
        Evict::Evicted => NR_EVICTED,
        Evict::Nothing => NR_NOTHING,
    }
}

/// The number of a cancel's answer.
pub fn of_cancel(answer: Cancel) -> u32
    ensures { result ≡ cancel_code answer }
{
    match answer {
        Cancel::Cancelled => NR_CANCELLED,
        Cancel::Nothing => NR_NOTHING,
        Cancel::Worn => NR_WORN,
    }
}

/// The number of a key's state.
pub fn of_kind(kind: KeyKind) -> u32
    ensures { result ≡ kind_code kind }
{
    match kind {
        KeyKind::Hole => NR_HOLE,
        KeyKind::Asked => NR_ASKED,
        KeyKind::Rows => NR_ROWS,
    }
}

/// The number of a post's answer.
pub fn of_post(answer: Result<(), PostFault>) -> u32
    ensures { result ≡ post_code answer }
{
    match answer {
        Ok(()) => NR_DONE,
        Err(PostFault::Full) => NR_FULL,
        Err(PostFault::InTheWay) => NR_IN_THE_WAY,
    }
}

/// The number of a take that got no trigger.
pub fn of_take_fault(fault: TakeFault) -> u32
    ensures { result ≡ take_code fault }
{
    match fault {
        TakeFault::Empty => NR_EMPTY,
        TakeFault::InTheWay => NR_IN_THE_WAY,
    }
}
