//! A reader by id that holds the set of an id from call to call.
ghost use Rattle.std.specs.Prelude.{◌≡◌, ◌≢◌, ◌<◌, IsSome, None};
ghost use Rattle.nr_model.specs.Rows.{IsRowSet};
ghost use Rattle.nr_model.specs.declared.rows.TheConstants.{MAX_ROWS};
ghost use Rattle.nr_ids.specs.Answers.{Requests};
ghost use Rattle.nr_idmap.specs.IdHands.{AgainById, FindsIdKept, HoldsAnew, HoldsById, HoldsInWay, HoldsUnmarked, LetsGoById, LoadsLine, MarksHeld, PinsById, hand_table_of, idle_by_id, reader_of, rows_in_hand};
ghost use Rattle.nr_idmap.specs.Keepers.{id_table_of};

use crate::finds::FoundId;
use crate::id_map::IdMap;
use crate::rows::{behind, copy_all, has_tag};
use crate::tokens::IdReader;
use nr_ids::Requested;
use nr_map::{Found, Hand};
use nr_model::{Row, RowRoom, SortedRows};
use std::marker::Model;

/// A reader by id between two calls, whether it holds nothing or the set that it found of an id. What
/// it holds stays as it is until a call lets it go, and no reclaiming call gives it out. A hand can't
/// be dropped: its reader is taken out of it.
pub struct IdHand {
    pub(crate) hand: Hand,
    pub(crate) ids: nr_ids::Reader,
    // Before the set, so that what a find writes lies together.
    pub(crate) held: Option<Holding>,
    // The set that is held, with its tag.
    pub(crate) sorted: SortedRows,
}

// The id whose set is held, and its way. The number 0 tells that the set is held for no id, by a hand that
// goes on from it to another; the rows here haven't that.
#[derive(Clone, Copy)]
pub(crate) struct Holding {
    pub id: u64,
    pub way: u32,
}

impl Model for IdHand {
    ghost use Rattle.nr_idmap.specs.IdHands.{IdHanded, IsIdHand, id_held};

    ghost Value = { IdHanded };

    ghost view = { λ hand. record { hand = hand.hand; ids = hand.ids; id = id_held hand.held } };

    ghost invariant = { λ hand. IsIdHand hand.hand hand.sorted hand.held };
}

impl IdHand {
    /// A hand of a reader, which holds nothing.
    pub fn of(reader: IdReader) -> IdHand
        ensures { result ≡ idle_by_id reader }
    {
        let IdReader { reader, ids } = reader;
        IdHand {
            hand: Hand::of(reader),
            ids,
            sorted: SortedRows::new(),
            held: None,
        }
    }

    /// Lets go what is held, in 1 step, and gives the reader back; no step where nothing is held.
    pub fn into_reader(self, map: &IdMap) -> IdReader
        requires own { hand_table_of self ≡ map.now }
        ensures own { id_table_of result ≡ map.now }
        ensures lets_go { LetsGoById self (idle_by_id result) }
        ensures idle { self.id ≡ None → result ≡ reader_of self }
    {
        let IdHand {
            hand,
            ids,
            sorted: _,
            held: _,
        } = self;
        IdReader {
            reader: hand.into_reader(&map.map),
            ids,
        }
    }

    /// The id whose set is held, 0 where that is for no id.
    pub fn id(&self) -> Option<u64>
        ensures { result ≡ self.now.id }
    {
        match self.held {
            Some(held) => Some(held.id),
            None => None,
        }
    }

    /// The rows of that id; none where nothing is held. Takes no step.
    pub fn rows(&self) -> &[Row]
        ensures rows { result.now ≡ rows_in_hand self.now }
        ensures row_set { IsRowSet MAX_ROWS result.now }
    {
        match self.held {
            Some(held) if held.id > 0 => behind(self.sorted.as_slice()),
            _ => &[],
        }
    }

    /// Writes those rows into the caller's room. Takes no step.
    pub fn copy_to<R: RowRoom>(&self, rows: &mut R)
        ensures shows { R.shows rows.new (rows_in_hand self.now) }
    {
        copy_all(self.rows(), rows);
    }

    /// Lets go what is held, in 1 step; no step where nothing is.
    pub fn release(&mut self, map: &IdMap)
        requires own { hand_table_of self.old ≡ map.now }
        ensures own { hand_table_of self.new ≡ map.now }
        ensures lets_go { LetsGoById self.old self.new }
    {
        self.hand.release(&map.map);
        self.held = None;
    }

    /// Finds an id again: whether its way still has the set that is held, put by the same fill or
    /// update. Then this is a find of the id, which is answered with the rows that are held, even if
    /// the way has another name by now. Takes 1 step of the map, which writes no word, and none where
    /// no set of that id is held.
    pub fn again(&mut self, map: &IdMap, id: u64) -> bool
        requires own { hand_table_of self.old ≡ map.now }
        ensures own { hand_table_of self.new ≡ map.now }
        ensures again { AgainById id self.old self.new result }
    {
        match self.held {
            Some(held) if id > 0 && held.id == id => self.hand.again(&map.map, held.way),
            _ => false,
        }
    }

    /// Finds an id and holds its set, whose rows `rows` shows; nothing is held where the answer isn't
    /// `Rows`. Where it holds the id's set already it finds it again, by `again`, and then looks at the
    /// way's mark. Else it takes the load, the look-up of `find` and its look at the mark, and the
    /// steps of the map's `find_kept` with a row more; 1 more where the set that was found is let go, since
    /// it is another id's. At `Rows` it marks the way in 1 step, unless it is marked already.
    pub fn pin(&mut self, map: &IdMap, id: u64) -> FoundId
        requires own { hand_table_of self.old ≡ map.now }
        requires id { 0 < id }
        ensures own { hand_table_of self.new ≡ map.now }
        ensures pins { PinsById id self.old self.new result }
    {
        if self.again(map, id) {
            self.mark(map);
            return FoundId::Rows;
        }
        self.hold_anew(map, id)
    }

    /// Finds an id and holds its set as `pin` does, but neither looks at the way's mark nor sets it: for who has
    /// just put that set, and hasn't asked for it. Takes the steps of `pin` without those.
    pub fn hold(&mut self, map: &IdMap, id: u64) -> FoundId
        requires own { hand_table_of self.old ≡ map.now }
        requires id { 0 < id }
        ensures own { hand_table_of self.new ≡ map.now }
        ensures holds { HoldsById id self.old self.new result }
    {
        if self.again(map, id) {
            return FoundId::Rows;
        }
        self.hold_unmarked(map, id)
    }

    /// As `pin`, and writes the rows into the caller's room, which stays as it is unless the answer is
    /// `Rows`.
    pub fn find_kept<R: RowRoom>(&mut self, map: &IdMap, id: u64, rows: &mut R) -> FoundId
        requires own { hand_table_of self.old ≡ map.now }
        requires id { 0 < id }
        ensures own { hand_table_of self.new ≡ map.now }
        ensures finds { FindsIdKept R.shows id self.old rows.old self.new rows.new result }
    {
        let found = self.pin(map, id);
        if let FoundId::Rows = found {
            self.copy_to(rows);
        }
        found
    }

    /// Requests an id that has no way, as the map's `request`. What is held stays held.
    pub fn request(&mut self, map: &IdMap, id: u64) -> Requested
        requires own { hand_table_of self.old ≡ map.now }
        requires id { 0 < id }
        ensures own { hand_table_of self.new ≡ map.now }
        ensures answer { Requests id self.old.ids self.new.ids result }
        ensures held { (self.new.hand ≡ self.old.hand) × (self.new.id ≡ self.old.id) }
    {
        map.directory.request(&mut self.ids, id)
    }

    // Marks the way whose set is held.
    fn mark(&mut self, map: &IdMap)
        requires own { hand_table_of self.old ≡ map.now }
        requires holds { IsSome self.old.id }
        ensures own { hand_table_of self.new ≡ map.now }
        ensures marks { MarksHeld self.old self.new }
    {
        if let Some(held) = self.held {
            let is_marked = map.directory.is_marked(&mut self.ids, held.way);
            map.directory.mark(&mut self.ids, held.way, is_marked);
        }
    }

    // Finds an id by its name, holds its set and marks its way.
    fn hold_anew(&mut self, map: &IdMap, id: u64) -> FoundId
        requires own { hand_table_of self.old ≡ map.now }
        requires id { 0 < id }
        ensures own { hand_table_of self.new ≡ map.now }
        ensures holds { HoldsAnew id self.old self.new result }
    {
        self.load_line(map, id);
        let Some(at) = map.look_up(&mut self.ids, id) else {
            self.release(map);
            return FoundId::Absent;
        };
        let found = self.hold_in(map, at.way, id);
        if let FoundId::Rows = found {
            map.directory.mark(&mut self.ids, at.way, at.is_marked);
        }
        found
    }

    // The same without a mark.
    fn hold_unmarked(&mut self, map: &IdMap, id: u64) -> FoundId
        requires own { hand_table_of self.old ≡ map.now }
        requires id { 0 < id }
        ensures own { hand_table_of self.new ≡ map.now }
        ensures holds { HoldsUnmarked id self.old self.new result }
    {
        self.load_line(map, id);
        let Some(way) = map.directory.look_up(&mut self.ids, id) else {
            self.release(map);
            return FoundId::Absent;
        };
        self.hold_in(map, way, id)
    }

    // Loads the word of the first way of the id's group.
    #[inline(always)]
    fn load_line(&mut self, map: &IdMap, id: u64)
        requires own { hand_table_of self.old ≡ map.now }
        ensures own { hand_table_of self.new ≡ map.now }
        ensures loads { LoadsLine id self.old self.new }
    {
        let first = map.directory.plan().first_way(id);
        self.hand.load_key(&map.map, first);
    }

    // Finds what the way has that had the id's name, and holds it if it is the id's set.
    #[inline(always)]
    fn hold_in(&mut self, map: &IdMap, way: u32, id: u64) -> FoundId
        requires own { hand_table_of self.old ≡ map.now }
        requires way { way < map.now.map.shape.keys }
        requires id { 0 < id }
        ensures own { hand_table_of self.new ≡ map.now }
        ensures holds { HoldsInWay way id self.old self.new result }
        ensures ids { self.new.ids ≡ self.old.ids }
    {
        self.held = None;
        match self.hand.find_kept(&map.map, way, &mut self.sorted) {
            Found::Hole => FoundId::Pending,
            Found::Rows => {
                if has_tag(self.sorted.as_slice(), id) {
                    self.held = Some(Holding { id, way });
                    FoundId::Rows
                } else {
                    self.hand.release(&map.map);
                    FoundId::Moved
                }
            }
        }
    }
}
