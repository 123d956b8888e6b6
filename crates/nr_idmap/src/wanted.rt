//! Finds of many ids by one call.
ghost use Rattle.std.specs.Prelude.{◌≡◌, ◌+◌, ◌<◌, ◌≤◌, All, length, min, take};
ghost use Rattle.nr_idmap.specs.declared.finds.FoundId.TheVariants.{Absent};
ghost use Rattle.nr_idmap.specs.IdFindsEach.{FindsBatch, FindsEachId, FindsInBatches, FindsInWays, FindsWantedId, ids_of};
ghost use Rattle.nr_idmap.specs.IdHands.{hand_table_of};
ghost use Rattle.nr_idmap.specs.IdWalks.{IsNear};

use crate::finds::{FoundId, NamedWay};
use crate::hands::IdHand;
use crate::id_map::IdMap;
use nr_model::RowRoom;

/// How many ids are looked up at a time.
pub const BATCH: usize = 16;

/// An id to be found, the room for its rows, and what its last find was answered.
#[derive(Drop)]
pub struct WantedId<R> {
    pub id: u64,
    pub rows: R,
    pub found: FoundId,
}

impl<R> WantedId<R> {
    /// An id that is yet to be found, `Absent` until then.
    pub fn of(id: u64, rows: R) -> WantedId<R>
        ensures id { result.id ≡ id }
        ensures rows { result.rows ≡ rows }
        ensures found { result.found ≡ Absent }
    {
        WantedId {
            id,
            rows,
            found: FoundId::Absent,
        }
    }
}

impl IdMap {
    /// Looks each id up, in their order, and finds it in the way that has its name: a find of each is an entry
    /// of its own, also of an id that is wanted twice. Each id's rows go to its own room, which stays as it is
    /// unless the answer is `Rows`. The look-ups are made for 16 ids at a time before these are found, so that
    /// the caches fetch what 16 finds need at once. Takes the hand's `look_up` of each 16, and `find_in` of each
    /// id, by which a reader that has a word announces each set in place of the one before it; and 1 step in the
    /// end if the last one found is held: it is let go.
    pub fn find_each<R: RowRoom>(&self, hand: &mut IdHand, wanted: &mut [WantedId<R>])
        requires own { hand_table_of hand.old ≡ self.now }
        requires ids { All (λ one. 0 < one.id) wanted.old }
        ensures own { hand_table_of hand.new ≡ self.now }
        ensures finds { FindsEachId R.shows hand.old wanted.old hand.new wanted.new }
    {
        self.find_batches(hand, wanted);
        hand.release(self);
    }

    fn find_batches<R: RowRoom>(&self, hand: &mut IdHand, wanted: &mut [WantedId<R>])
        requires own { hand_table_of hand.old ≡ self.now }
        requires ids { All (λ one. 0 < one.id) wanted.old }
        ensures own { hand_table_of hand.new ≡ self.now }
        ensures finds { FindsInBatches R.shows hand.old wanted.old hand.new wanted.new }
    {
        for batch in 0..wanted.len().div_ceil(BATCH) {
            let begin = batch * BATCH;
            let end = end_of_batch(begin, wanted.len());
            self.find_batch(hand, &mut wanted[begin..end]);
        }
    }

    // The finds of at most sixteen ids.
    fn find_batch<R: RowRoom>(&self, hand: &mut IdHand, wanted: &mut [WantedId<R>])
        requires own { hand_table_of hand.old ≡ self.now }
        requires ids { All (λ one. 0 < one.id) wanted.old }
        requires few { length wanted.old ≤ 16 }
        ensures own { hand_table_of hand.new ≡ self.now }
        ensures finds { FindsBatch R.shows hand.old wanted.old hand.new wanted.new }
    {
        let mut ids = [0; BATCH];
        copy_ids(wanted, &mut ids);
        let mut ways = [None; BATCH];
        hand.look_up(self, &ids[..wanted.len()], &mut ways);
        self.find_in_ways(hand, &ways[..wanted.len()], wanted);
    }

    fn find_in_ways<R: RowRoom>(
        &self,
        hand: &mut IdHand,
        ways: &[Option<NamedWay>],
        wanted: &mut [WantedId<R>],
    )
        requires own { hand_table_of hand.old ≡ self.now }
        requires near { All (IsNear self.now.map.shape.keys) ways.now }
        requires as_many { length ways.now ≡ length wanted.old }
        ensures own { hand_table_of hand.new ≡ self.now }
        ensures finds { FindsInWays R.shows ways.now hand.old wanted.old hand.new wanted.new }
    {
        for place in 0..ways.len() {
            self.find_wanted(hand, ways[place], &mut wanted[place]);
        }
    }

    fn find_wanted<R: RowRoom>(
        &self,
        hand: &mut IdHand,
        at: Option<NamedWay>,
        one: &mut WantedId<R>,
    )
        requires own { hand_table_of hand.old ≡ self.now }
        requires near { IsNear self.now.map.shape.keys at }
        ensures own { hand_table_of hand.new ≡ self.now }
        ensures finds { FindsWantedId R.shows at hand.old one.old hand.new one.new }
    {
        one.found = hand.find_in(self, at, one.id, &mut one.rows);
    }
}

// Writes the ids over the first ones there.
fn copy_ids<R>(wanted: &[WantedId<R>], ids: &mut [u64; BATCH])
    requires few { length wanted.now ≤ 16 }
    ensures { take (length wanted.now) ids.new ≡ ids_of wanted.now }
{
    for place in 0..wanted.len() {
        ids[place] = wanted[place].id;
    }
}

// Where the batch ends that begins there, of that many ids.
fn end_of_batch(begin: usize, ids: usize) -> usize
    requires { begin < ids }
    ensures { result ≡ min (begin + 16) ids }
{
    if ids - begin < BATCH {
        ids
    } else {
        begin + BATCH
    }
}
