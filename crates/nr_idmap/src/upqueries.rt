//! Upqueries: the writer opens one for each id that it admits, and closes it by a fill or a withdrawal.
ghost use Rattle.std.specs.Prelude.{◌≡◌, ◌<◌, IfErr, IfOk};
ghost use Rattle.nr_model.specs.Maps.{number_of, state_of};
ghost use Rattle.nr_board.specs.Callers.{map_seen};
ghost use Rattle.nr_idmap.specs.Keepers.{id_rows};
ghost use Rattle.nr_idmap.specs.Asking.{AsksWay};
ghost use Rattle.nr_idmap.specs.Tags.{IsIdSet};

use crate::id_map::IdMap;
use crate::rows::put_tagged;
use crate::tokens::IdWriter;
use nr_core::NoSlot;
use nr_ids::Refused;
use nr_map::{Asked, Cancel, FillFault, Reader, ReaderMap, Writer};
use nr_model::Row;
use std::marker::Model;
use std::snapshot::Snapshot;

/// An upquery that is to be sent, for one absence of one id. Only an admission makes it. It can't be
/// dropped: it is open until a fill or a withdrawal spends it, or its map is gone.
pub struct Upquery {
    way: u32,
    number: u64,
    id: u64,
    map: Snapshot<IdMap>,
}

impl Model for Upquery {
    ghost use Rattle.std.specs.Prelude.{◌<◌};
    ghost use Rattle.nr_idmap.specs.Keepers.{Sent};

    ghost Value = { Sent };

    ghost view = { λ upquery. record { table = upquery.map.value; owed = record { way = upquery.way; number = upquery.number; id = upquery.id } } };

    ghost invariant = { λ upquery. 0 < upquery.id };
}

impl Upquery {
    /// The id whose rows are wanted.
    pub fn id(&self) -> u64
        ensures { result ≡ self.now.owed.id }
    {
        self.id
    }

    /// The way that they are for.
    pub fn way(&self) -> u32
        ensures { result ≡ self.now.owed.way }
    {
        self.way
    }

    /// The way's ticket number, which a withdrawal raises.
    pub fn number(&self) -> u64
        ensures { result ≡ self.now.owed.number }
    {
        self.number
    }

    /// Ends an upquery of a map that is gone: the id whose rows were wanted.
    pub fn end(self, map: &ClosedMap) -> u64
        requires of { self.table ≡ map.now }
        ensures { result ≡ self.owed.id }
    {
        let _gone = &map.map;
        self.into_parts().2
    }

    pub(crate) fn into_parts(self) -> (u32, u64, u64)
        ensures parts { let (way, number, id) = result in self.owed ≡ record { way = way; number = number; id = id } }
        ensures id { let (_, _, id) = result in 0 < id }
    {
        let Upquery {
            way,
            number,
            id,
            map: _,
        } = self;
        (way, number, id)
    }
}

/// A map that is gone. Nobody fills or withdraws its upqueries any more, so those that are open end
/// with it.
#[derive(Drop)]
pub struct ClosedMap {
    map: Snapshot<IdMap>,
}

impl Model for ClosedMap {
    ghost use Rattle.nr_idmap.specs.Keepers.{IdTable};

    ghost Value = { IdTable };

    ghost view = { λ closed. closed.map.value };
}

/// Why an upquery isn't filled.
pub enum Unfilled {
    /// It isn't open: it was another writer's. It is spent.
    Closed,
    /// There is no slot. It comes back, and is open still.
    NoSlot(Upquery, NoSlot),
}

/// The answer to a withdrawal.
pub enum Withdrawn {
    /// The id has no way now, and may be claimed again.
    Done,
    /// It isn't open: it was another writer's.
    Closed,
    /// Its ticket number is the last one, so its own fill alone ends it. It comes back, and is open
    /// still.
    Worn(Upquery),
}

impl IdMap {
    ghost use Rattle.nr_idmap.specs.IdWrites.{AdmitsId, FillsId, RefusesId, ReturnsTo, ReturnsWorn, WithdrawsId};

    /// Answers the open claim of the id's group: the id gets a way, which the writer's own reader asks
    /// for, and its upquery is open. Refused where no claim is open, where a way has the id's name, and
    /// where each way of its two groups has a name. Takes 1 step of the directory, where a claim
    /// is open those of a look-up, where no way has the name 2 more, and unless the groups are full 4 more,
    /// 2 of the map's writer, and 3 of its reader.
    pub fn admit(&self, writer: &mut IdWriter, id: u64) -> Result<Upquery, Refused>
        requires own { writer.old.table ≡ self.now }
        requires id { 0 < id }
        ensures own { writer.new.table ≡ self.now }
        ensures admits { IfOk result (λ upquery. (upquery.table ≡ self.now) × AdmitsId id writer.old writer.new upquery.owed) }
        ensures refused { IfErr result (λ why. RefusesId id writer.old writer.new why) }
    {
        let way = self.directory.admit(&mut writer.clerk, id)?;
        let number = ask_way(&self.map, &mut writer.writer, &mut writer.asker, way);
        Ok(self.upquery(way, number, id))
    }

    /// Answers an upquery with at most as many of the id's rows as it may have. Refused where the
    /// upquery isn't open, and where there is no slot. Takes the steps of a look-up, and those of
    /// the map's `fill` for a row more.
    pub fn fill(
        &self,
        writer: &mut IdWriter,
        upquery: Upquery,
        rows: &[Row],
    ) -> Result<(), Unfilled>
        requires own { writer.old.table ≡ self.now }
        requires upquery { upquery.table ≡ self.now }
        requires rows { IsIdSet (id_rows self.now) rows.now }
        ensures own { writer.new.table ≡ self.now }
        ensures fills { FillsId upquery.owed rows.now writer.old writer.new result }
        ensures returns { IfErr result (λ unfilled. ReturnsTo self.now unfilled) }
        ensures asker { writer.new.asker ≡ writer.old.asker }
    {
        let (way, number, id) = upquery.into_parts();
        if self.directory.way_of(&mut writer.clerk, id) != Some(way) {
            return Err(Unfilled::Closed);
        }
        put_tagged(&mut writer.sorted, id, rows, self.map.rows() - 1);
        match self
            .map
            .fill_rows(&mut writer.writer, way, number, writer.sorted.as_slice())
        {
            Ok(()) => Ok(()),
            Err(FillFault::NoSlot(counts)) => {
                Err(Unfilled::NoSlot(self.upquery(way, number, id), counts))
            }
            Err(FillFault::NotAsked) => Err(Unfilled::Closed),
            Err(FillFault::Already) => Err(Unfilled::Closed),
            Err(FillFault::Stale) => Err(Unfilled::Closed),
        }
    }

    /// Takes an upquery back: its way has the next ticket number and no name, and its answer comes too
    /// late. Takes the steps of a look-up, 2 of the map, and 3 of the directory.
    pub fn withdraw(&self, writer: &mut IdWriter, upquery: Upquery) -> Withdrawn
        requires own { writer.old.table ≡ self.now }
        requires upquery { upquery.table ≡ self.now }
        ensures own { writer.new.table ≡ self.now }
        ensures withdraws { WithdrawsId upquery.owed writer.old writer.new result }
        ensures returns { ReturnsWorn self.now result }
        ensures asker { writer.new.asker ≡ writer.old.asker }
    {
        let (way, number, id) = upquery.into_parts();
        if self.directory.way_of(&mut writer.clerk, id) != Some(way) {
            return Withdrawn::Closed;
        }
        if self.map.number(&writer.writer, way) != number {
            return Withdrawn::Closed;
        }
        match self.map.cancel(&mut writer.writer, way) {
            Cancel::Cancelled => {
                self.directory.unname(&mut writer.clerk, way);
                Withdrawn::Done
            }
            Cancel::Nothing => Withdrawn::Closed,
            Cancel::Worn => Withdrawn::Worn(self.upquery(way, number, id)),
        }
    }

    /// Ends the map. Takes no step.
    pub fn close(self) -> ClosedMap
        ensures { result ≡ self }
    {
        ClosedMap {
            map: Snapshot::of(&self),
        }
    }

    pub(crate) fn upquery(&self, way: u32, number: u64, id: u64) -> Upquery
        requires { 0 < id }
        ensures { result ≡ record { table = self.now; owed = record { way = way; number = number; id = id } } }
    {
        Upquery {
            way,
            number,
            id,
            map: Snapshot::of(self),
        }
    }
}

// The asker learns what the writer knows, asks for the way, and tells the writer. The way's ticket
// number.
fn ask_way(map: &ReaderMap, writer: &mut Writer, asker: &mut Reader, way: u32) -> u64
    requires own { (writer.old.table ≡ map.now) × (asker.old.table ≡ map.now) }
    requires way { way < map.now.shape.keys }
    ensures asks { AsksWay way asker.old writer.old asker.new writer.new }
    ensures number { result ≡ number_of (state_of (map_seen writer.new) way) }
{
    map.meet(asker, writer);
    match map.ask(asker, way) {
        Asked::Send(ticket) => {
            ticket.into_key();
        }
        Asked::Waiting | Asked::Filled => {}
    }
    let told = map.note(asker);
    map.hear_writer(writer, told);
    map.number(writer, way)
}
