//! Upqueries of a map over ids, which C has by their numbers.
ghost use Rattle.std.specs.Prelude.{◌≡◌, ⊤, MatchOption};
ghost use Rattle.nr_c.specs.IdLive.{IdWriterTurns, WithId};
ghost use Rattle.nr_c.specs.IdUpqueries.{AdmitsByCode, FillsIdByCode, WithOwn, WithdrawsByCode};
ghost use Rattle.nr_c.specs.Live.{WhenLive};

use crate::codes::{
    NR_CANCELLED, NR_CLOSED, NR_DONE, NR_NO_KEY, NR_SEND, NR_STALE, NR_STRANGER, NR_WORN,
    of_no_slot,
};
use crate::id_codes::of_refused;
use crate::id_rows::id_refusal;
use crate::id_writer_handle::NrIdWriter;
use crate::id_writer_side::IdWriterSide;
use crate::kept_upquery::NrUpquery;
use nr_idmap::{Unfilled, Withdrawn};
use nr_model::Row;

/// Answers the open claim of the id's group: the id gets a way, and an upquery is open, whose numbers
/// are told. Answers `NR_SEND`; `NR_NOT_ASKED` where no claim of its group is open; `NR_NAMED` where the
/// id has a way; `NR_FULL` where each way of its two groups has a name; or `NR_NO_KEY` for the id 0, with no
/// step. `upquery` stays with each answer but the first. Takes 1 step of the directory, where a
/// claim is open those of a look-up, where no way has the name 2 more, and unless the groups are full 4
/// more, 2 of the map's writer and 3 of its reader.
#[unsafe(no_mangle)]
pub extern "C" fn nr_admit(writer: &mut NrIdWriter, id: u64, upquery: &mut NrUpquery) -> u32
    ensures { WhenLive (upquery.new ≡ upquery.old) (WithId id (upquery.new ≡ upquery.old) (IdWriterTurns (AdmitsByCode id upquery.old upquery.new))) writer.old.live writer.new.live result }
{
    if !writer.is_live() {
        return NR_CLOSED;
    }
    if id == 0 {
        return NR_NO_KEY;
    }
    let side = writer.side();
    match side.map.admit(&mut side.writer, id) {
        Ok(opened) => {
            *upquery = side.ledger.keep_new(opened);
            NR_SEND
        }
        Err(why) => of_refused(why),
    }
}

/// Answers an upquery with the id's rows, in ascending order. Answers with no step `NR_STRANGER` where
/// another map opened the upquery; `NR_TOO_MANY`, `NR_NOT_SORTED` and `NR_BAD_ROW` for rows that aren't an
/// id's; and `NR_STALE` where the upquery isn't open. Else `NR_DONE`; or `NR_NO_SLOT` where readers hold
/// slots, and else `NR_ALL_FILLED`, and it is open still. Takes the steps of a look-up, and those of
/// the map's fill for a row more.
#[unsafe(no_mangle)]
pub extern "C" fn nr_fill_id(writer: &mut NrIdWriter, upquery: &NrUpquery, rows: &[Row]) -> u32
    ensures { WhenLive ⊤ (IdWriterTurns (WithOwn upquery.now ⊤ (FillsIdByCode upquery.now rows.now))) writer.old.live writer.new.live result }
{
    if !writer.is_live() {
        return NR_CLOSED;
    }
    let side = writer.side();
    if !side.ledger.is_own(upquery) {
        return NR_STRANGER;
    }
    if let Some(code) = id_refusal(side.map.rows(), rows) {
        return code;
    }
    let Some(opened) = side.ledger.give_up(*upquery) else {
        return NR_STALE;
    };
    match side.map.fill(&mut side.writer, opened, rows) {
        Ok(()) => NR_DONE,
        Err(Unfilled::Closed) => NR_STALE,
        Err(Unfilled::NoSlot(opened, counts)) => {
            side.ledger.keep(upquery.count, opened);
            of_no_slot(counts)
        }
    }
}

/// Takes an upquery back: its id has no way then, and may be claimed again. Answers `NR_CANCELLED`; with no
/// step `NR_STRANGER` where another map opened it, and `NR_STALE` where it isn't open; or `NR_WORN` where its ticket number is the last one,
/// and it is open still. Takes the steps of a look-up, 2 of the map, and 3 of the directory; 1 of
/// the map and no more where it is worn.
#[unsafe(no_mangle)]
pub extern "C" fn nr_withdraw_id(writer: &mut NrIdWriter, upquery: &NrUpquery) -> u32
    ensures { WhenLive ⊤ (IdWriterTurns (WithOwn upquery.now ⊤ (WithdrawsByCode upquery.now))) writer.old.live writer.new.live result }
{
    if !writer.is_live() {
        return NR_CLOSED;
    }
    let side = writer.side();
    if !side.ledger.is_own(upquery) {
        return NR_STRANGER;
    }
    take_back(side, *upquery)
}

/// Takes an upquery back that a writer opened, where these are its numbers.
pub fn take_back(side: &mut IdWriterSide, upquery: NrUpquery) -> u32
    ensures withdraws { WithdrawsByCode upquery side.old side.new result }
    ensures map { side.new.map ≡ side.old.map }
    ensures spare { side.new.spare ≡ side.old.spare }
    ensures watch { side.new.watch ≡ side.old.watch }
{
    let Some(opened) = side.ledger.give_up(upquery) else {
        return NR_STALE;
    };
    match side.map.withdraw(&mut side.writer, opened) {
        Withdrawn::Done => NR_CANCELLED,
        Withdrawn::Closed => NR_STALE,
        Withdrawn::Worn(opened) => {
            side.ledger.keep(upquery.count, opened);
            NR_WORN
        }
    }
}
