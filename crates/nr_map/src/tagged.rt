//! Finds of sets that begin with a tag: a row that says whose rows the others are.
ghost use Rattle.std.specs.Prelude.{◌≡◌, ◌↔◌, ◌<◌, ◌-◌, ◌*◌, drop, length, min, None, IsTrue};
ghost use Rattle.nr_board.specs.Callers.{Rests, token};
ghost use Rattle.nr_board.specs.Holds.{HeldAs};
ghost use Rattle.nr_board.specs.Seats.{IdlesAt};
ghost use Rattle.nr_board.specs.Views.{rows_held, view_of};
ghost use Rattle.nr_map.specs.Answers.{MarksFound};
ghost use Rattle.nr_map.specs.Tagged.{IsTagged, FindsTagged, LetsGoAndFindsTagged, found_of};
ghost use Rattle.nr_map.specs.Tokens.{IsReader};

use crate::hand::Hand;
use crate::reader::Reader;
use crate::reader_map::ReaderMap;
use crate::token::Token;
use nr_board::Held;
use nr_model::{Row, RowRoom};

/// The answer to a find of a set that begins with a tag.
#[derive(Clone, Copy, Debug, PartialEq, Eq)]
pub enum Tagged {
    /// The caller's room has the rows behind the tag.
    Rows,
    /// The key's set has no row, or another first one.
    Other,
    /// The key is not filled.
    Hole,
}

impl ReaderMap {
    /// As `find_into`, of a set that begins with a tag: the rows behind it go to the caller's room, which
    /// stays as it is unless the answer is `Rows`. Takes the steps of `find_into`, where the tag is one of
    /// the n rows. Of another set it reads no row but the first: n is 1 then, or 0 where the set is empty.
    pub fn find_tagged<R: RowRoom>(
        &self,
        reader: &mut Reader,
        key: u32,
        tag: Row,
        rows: &mut R,
    ) -> Tagged
        requires own { reader.old.table ≡ self.now }
        requires key { key < self.now.shape.keys }
        ensures own { reader.new.table ≡ self.now }
        ensures finds { FindsTagged R.shows tag key reader.old rows.old reader.new rows.new result }
        ensures idle { reader.new.holds ≡ None }
        ensures silent { reader.new.says ≡ 0 }
        ensures marks { MarksFound key reader.old reader.new (found_of result) }
    {
        reader.caller.find_tagged(self, key, tag, rows)
    }
}

impl Hand {
    /// Lets go what is held, and finds as the map's `find_tagged` does: nothing is held then.
    #[inline(always)]
    pub fn find_tagged<R: RowRoom>(
        &mut self,
        map: &ReaderMap,
        key: u32,
        tag: Row,
        rows: &mut R,
    ) -> Tagged
        requires own { self.old.reader.table ≡ map.now }
        requires key { key < map.now.shape.keys }
        ensures own { self.new.reader.table ≡ map.now }
        ensures finds { LetsGoAndFindsTagged R.shows tag key self.old rows.old self.new rows.new result }
    {
        self.release(map);
        self.caller.find_tagged(map, key, tag, rows)
    }
}

impl Token {
    // Finds a key, and writes the rows behind the tag where its set begins with that: nothing is held
    // before and after.
    #[inline(always)]
    pub(crate) fn find_tagged<R: RowRoom>(
        &mut self,
        map: &ReaderMap,
        key: u32,
        tag: Row,
        rows: &mut R,
    ) -> Tagged
        requires reader { IsReader self.old.seat self.old.own }
        requires idle { IdlesAt map.now self.old.seat }
        requires key { key < map.now.shape.keys }
        ensures reader { IsReader self.new.seat self.new.own }
        ensures idle { IdlesAt map.now self.new.seat }
        ensures finds { FindsTagged R.shows tag key (token self.old.seat) rows.old (token self.new.seat) rows.new result }
        ensures marks { MarksFound key (token self.old.seat) (token self.new.seat) (found_of result) }
    {
        let Some(held) = map.board.hold_key(&mut self.seat, self.own, key) else {
            return Tagged::Hole;
        };
        let answer = if self.begins_with(map, held, tag) {
            map.board.copy_from::<1, R>(&mut self.seat, held, rows);
            Tagged::Rows
        } else {
            Tagged::Other
        };
        map.board.let_go(&mut self.seat, self.own, held);
        answer
    }

    // Whether the set that is held begins with the tag.
    #[inline(always)]
    fn begins_with(&mut self, map: &ReaderMap, held: Held, tag: Row) -> bool
        requires held { HeldAs map.now held self.old.seat }
        ensures own { self.new.own ≡ self.old.own }
        ensures held { HeldAs map.now held self.new.seat }
        ensures begins { IsTrue result ↔ IsTagged tag (rows_held (view_of self.old.seat).role) }
        ensures same { rows_held (view_of self.new.seat).role ≡ rows_held (view_of self.old.seat).role }
        ensures rests { Rests (2 * min 1 (length (rows_held (view_of self.old.seat).role))) (token self.old.seat) (token self.new.seat) }
        ensures hold { (token self.new.seat).holds ≡ (token self.old.seat).holds }
        ensures marks { (view_of self.new.seat).marks ≡ (view_of self.old.seat).marks }
    {
        if held.count == 0 {
            return false;
        }
        let first = self.row(map, held, 0);
        first.a == tag.a && first.b == tag.b
    }
}
