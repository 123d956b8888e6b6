//! What readers do: they look ids up, and claim the group of an id that has no way.
ghost use Rattle.std.specs.Prelude.{◌≡◌, ◌<◌, ◌+◌, ◌*◌};
ghost use Rattle.nr_ids.specs.Answers.{LooksUp, Requests};
ghost use Rattle.nr_ids.specs.Groups.{IsPlan, group_of};
ghost use Rattle.nr_ids.specs.Looking.{Scans, ScansGroup};
ghost use Rattle.nr_ids.specs.Tokens.{Sits, token};

use crate::directory::{Directory, Seat};
use crate::hints::{first, fitting, others};
use crate::plan::WAYS;
use crate::tokens::Reader;
use std::marker::Model;
use std::snapshot::Snapshot;

/// At this turn a group is worn out: it was claimed 2^61 times.
pub(crate) const LAST_TURN: u64 = 1 << 62;

/// The claim of an id's group. It can't be dropped: its id must go to the clerk, who admits the id or
/// clears the claim. Until then no other claim of the group is granted.
pub struct Claim {
    id: u64,
    directory: Snapshot<Directory>,
}

impl Model for Claim {
    ghost use Rattle.std.specs.Prelude.{◌<◌};
    ghost use Rattle.nr_ids.specs.Tokens.{Granted};

    ghost Value = { Granted };

    ghost view = { λ claim. record { directory = claim.directory.value; id = claim.id } };

    ghost invariant = { λ claim. 0 < claim.id };
}

impl Claim {
    /// The id that the group was claimed for.
    pub fn id(&self) -> u64
        ensures id { result ≡ self.now.id }
        ensures real { 0 < result }
    {
        self.id
    }

    /// The id that the group was claimed for. The claim is spent.
    pub fn into_id(self) -> u64
        ensures id { result ≡ self.id }
        ensures real { 0 < result }
    {
        let Claim { id, directory: _ } = self;
        id
    }
}

/// The answer to a request.
pub enum Requested {
    /// The claim of the id's group is the caller's.
    Granted(Claim),
    /// This way has the id's name.
    Named(u32),
    /// A claim of the group was open.
    Busy,
    /// Another claim of the group was granted within the call.
    Outrun,
    /// The group was claimed 2^61 times, and can't be claimed again.
    Worn,
}

impl Directory {
    /// The way that has the id's name. Takes a look at the hints of the id's group and one at the name of
    /// each way that has the id's hint, up to the id's; and unless one of them is, the same of its second
    /// group. `None`: within the call there was a moment at which the id had no way.
    #[inline(always)]
    pub fn look_up(&self, reader: &mut Reader, id: u64) -> Option<u32>
        requires own { reader.old.directory ≡ self.now }
        requires id { 0 < id }
        ensures own { reader.new.directory ≡ self.now }
        ensures answer { LooksUp id reader.old reader.new result }
    {
        self.scan(&mut reader.seat, id)
    }

    /// Claims the id's group, where no claim of it is open and the id has no way. Takes 1 step, where no
    /// claim is open the steps of `look_up`, and 1 more where the claim is granted or another was within
    /// the call.
    pub fn request(&self, reader: &mut Reader, id: u64) -> Requested
        requires own { reader.old.directory ≡ self.now }
        requires id { 0 < id }
        ensures own { reader.new.directory ≡ self.now }
        ensures answer { Requests id reader.old reader.new result }
    {
        let seat = &mut reader.seat;
        let turn = self.look_at_turn(seat, self.plan().group_of(id));
        if turn % 2 == 1 {
            return Requested::Busy;
        }
        if turn >= LAST_TURN {
            return Requested::Worn;
        }
        if let Some(way) = self.scan(seat, id) {
            return Requested::Named(way);
        }
        if self.claim(seat, id, turn) {
            Requested::Granted(Claim {
                id,
                directory: Snapshot::of(self),
            })
        } else {
            Requested::Outrun
        }
    }

    /// The way of the id's group that has its name, or else of its second group.
    #[inline(always)]
    pub(crate) fn scan(&self, seat: &mut Seat, id: u64) -> Option<u32>
        requires caller { Sits self.now seat.old }
        requires id { 0 < id }
        ensures caller { Sits self.now seat.new }
        ensures scans { Scans id (token seat.old) (token seat.new) result }
    {
        let plan = self.plan();
        match self.scan_group(seat, plan.group_of(id), id) {
            Some(way) => Some(way),
            None => self.scan_group(seat, plan.second_of(id), id),
        }
    }

    // The way of a group that has the id's name: one of those that have its hint.
    #[inline(always)]
    fn scan_group(&self, seat: &mut Seat, group: u32, id: u64) -> Option<u32>
        requires caller { Sits self.now seat.old }
        requires plan { IsPlan self.now.plan }
        requires group { group < self.now.plan.groups }
        requires id { 0 < id }
        ensures caller { Sits self.now seat.new }
        ensures scans { ScansGroup id group (token seat.old) (token seat.new) result }
    {
        let hint = self.plan().hint_of(id);
        let hints = self.look_at_hints(seat, group);
        let mut left = fitting(hints, hint);
        while left != 0 {
            let way = WAYS * group + first(left);
            if self.look(seat, way) == id {
                return Some(way);
            }
            left = others(left);
        }
        None
    }
}
