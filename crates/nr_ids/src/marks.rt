//! Use bits, which tell what ways were found of late: readers set them, and the clerk takes them back, so
//! that it can choose which way another id may have. And loads ahead of look-ups.
ghost use Rattle.std.specs.Prelude.{◌≡◌, ◌<◌, ◌*◌, ◌↔◌, IsTrue, bit_xor};
ghost use Rattle.nr_ids.specs.Events.{HasMark};
ghost use Rattle.nr_ids.specs.Groups.{group_of, ways};
ghost use Rattle.nr_ids.specs.Marks.{ChoosesPlace, ChoosesWay, LoadsGroup, LoadsGroups, LooksAtMark, SetsMark, TakesMark, place_after};
ghost use Rattle.nr_ids.specs.Tokens.{Sits, token};

use crate::directory::{Directory, Seat};
use crate::plan::WAYS;
use crate::tokens::{Clerk, Reader};

/// Behind a group's use bits stands the place that `choose` begins at.
const AT: u64 = 256;

impl Directory {
    /// Whether a way is marked as found, in 1 step: what `mark` is to be told.
    pub fn is_marked(&self, reader: &mut Reader, way: u32) -> bool
        requires own { reader.old.directory ≡ self.now }
        requires way { way < ways self.now.plan }
        ensures own { reader.new.directory ≡ self.now }
        ensures looks { LooksAtMark way result reader.old reader.new }
    {
        self.has_mark(&mut reader.seat, way)
    }

    /// Marks a way as found, in 1 step; in none where it is marked already.
    pub fn mark(&self, reader: &mut Reader, way: u32, is_marked: bool)
        requires own { reader.old.directory ≡ self.now }
        requires way { way < ways self.now.plan }
        ensures own { reader.new.directory ≡ self.now }
        ensures marks { SetsMark way is_marked reader.old reader.new }
    {
        if !is_marked {
            self.set_mark(&mut reader.seat, way);
        }
    }

    /// Whether a way was marked since its mark was taken last, and takes it: in 2 steps where it is
    /// marked, and else in 1.
    pub fn take_mark(&self, clerk: &mut Clerk, way: u32) -> bool
        requires own { clerk.old.directory ≡ self.now }
        requires way { way < ways self.now.plan }
        ensures own { clerk.new.directory ≡ self.now }
        ensures takes { TakesMark way clerk.old clerk.new result }
    {
        if !self.has_mark(&mut clerk.seat, way) {
            return false;
        }
        self.turn_marks(&mut clerk.seat, way / WAYS, 1 << (way % WAYS));
        true
    }

    /// A way of the id's group that another id may have, by second chance: the first that isn't marked,
    /// from the way behind the last choice on. The marks before it are taken. If all eight are marked,
    /// all marks are taken, and the first of these ways is chosen. Takes 2 steps.
    pub fn choose(&self, clerk: &mut Clerk, id: u64) -> u32
        requires own { clerk.old.directory ≡ self.now }
        ensures own { clerk.new.directory ≡ self.now }
        ensures chooses { ChoosesWay (group_of self.now.plan id) result clerk.old clerk.new }
        ensures inside { result < ways self.now.plan }
    {
        let group = self.plan().group_of(id);
        let (place, bits) = chosen(self.marks(&mut clerk.seat, group));
        self.turn_marks(&mut clerk.seat, group, bits);
        WAYS * group + place
    }

    /// Loads the hints of each id's group and its first name, so that the lines of memory in which a look-up
    /// looks first are near then. It tells nothing. Takes 2 steps an id.
    pub fn load_ahead(&self, reader: &mut Reader, ids: &[u64])
        requires own { reader.old.directory ≡ self.now }
        ensures own { reader.new.directory ≡ self.now }
        ensures loads { LoadsGroups ids.now reader.old reader.new }
    {
        self.load_groups(&mut reader.seat, ids);
    }

    fn load_groups(&self, seat: &mut Seat, ids: &[u64])
        requires caller { Sits self.now seat.old }
        ensures caller { Sits self.now seat.new }
        ensures loads { LoadsGroups ids.now (token seat.old) (token seat.new) }
    {
        for id in ids {
            self.load_group(seat, *id);
        }
    }

    fn load_group(&self, seat: &mut Seat, id: u64)
        requires caller { Sits self.now seat.old }
        ensures caller { Sits self.now seat.new }
        ensures loads { LoadsGroup (group_of self.now.plan id) (token seat.old) (token seat.new) }
    {
        let group = self.plan().group_of(id);
        self.load_hints(seat, group);
        self.load_name(seat, WAYS * group);
    }

    fn has_mark(&self, seat: &mut Seat, way: u32) -> bool
        requires caller { Sits self.now seat.old }
        requires way { way < ways self.now.plan }
        ensures caller { Sits self.now seat.new }
        ensures looks { LooksAtMark way result (token seat.old) (token seat.new) }
    {
        has_bit(self.marks(seat, way / WAYS), way % WAYS)
    }
}

// Whether the use bit of a place is set in these marks.
fn has_bit(marks: u64, place: u32) -> bool
    requires place { place < 8 }
    ensures { IsTrue result ↔ HasMark marks place }
{
    marks & (1 << place) != 0
}

// The place in its group of the way that these marks choose, and the bits that change then.
fn chosen(marks: u64) -> (u32, u64)
    ensures chooses { let (place, bits) = result in ChoosesPlace marks place bits }
    ensures place { let (place, _) = result in place < 8 }
{
    let begin = (marks / AT % 8) as u32;
    let mut passed = 0;
    for step in 0..WAYS {
        let place = (begin + step) % WAYS;
        if !has_bit(marks, place) {
            return (place, passed | moved(begin, place));
        }
        passed |= 1 << place;
    }
    (begin, passed | moved(begin, begin))
}

// The bits that change where the next choice begins behind that place.
fn moved(begin: u32, place: u32) -> u64
    requires place { place < 8 }
    requires begin { begin < 8 }
    ensures { result ≡ 256 * bit_xor begin (place_after place 1) }
{
    AT * (begin ^ (place + 1) % WAYS) as u64
}
