//! What the clerk does: it answers claims, and takes names back.
ghost use Rattle.std.specs.Prelude.{◌≡◌, ◌<◌, ◌*◌, ◌⊎◌, IfSome, Some, None};
ghost use Rattle.nr_ids.specs.Answers.{Admits, AnswersClaim, Clears, FindsId, FindsWay, Gives, HasClaim, Unnames};
ghost use Rattle.nr_ids.specs.Events.{name_of};
ghost use Rattle.nr_ids.specs.Groups.{IsPlan, ways};
ghost use Rattle.nr_ids.specs.Looking.{HintsNames, Rooms, SeesRoom, SetsHint};
ghost use Rattle.nr_ids.specs.Tokens.{Sits, token};

use crate::directory::{Directory, Seat};
use crate::hints::{fitting, last, with_hint};
use crate::plan::WAYS;
use crate::tokens::Clerk;

/// An id goes to its own group while that has so much room, and else to the emptier of the two.
const AMPLE: u32 = 3;

/// Why an id isn't admitted. Then no way's name has changed, and a claim that was open still is.
#[derive(Clone, Copy, Debug, PartialEq, Eq)]
pub enum Refused {
    /// No claim of the id's group is open.
    NoClaim,
    /// This way has the id's name.
    Named(u32),
    /// Each way of the id's two groups has a name.
    Full,
}

/// The ways of a group that have no name: one of them, and how many they are.
#[derive(Clone, Copy)]
pub(crate) struct Room {
    pub way: Option<u32>,
    pub count: u32,
}

impl Directory {
    /// Answers the open claim of the id's group: the way that has the id's name from now on. Takes 1 step;
    /// where a claim is open also those of `look_up`, where no way has the name 2 more, and where the
    /// groups aren't both full 4 more.
    pub fn admit(&self, clerk: &mut Clerk, id: u64) -> Result<u32, Refused>
        requires own { clerk.old.directory ≡ self.now }
        requires id { 0 < id }
        ensures own { clerk.new.directory ≡ self.now }
        ensures answer { Admits id clerk.old clerk.new result }
    {
        let seat = &mut clerk.seat;
        let turn = self.answer_claim(seat, id)?;
        self.give(seat, id, turn)
    }

    /// Closes the open claim of the id's group without a name, in 2 steps: whether one was open; if not,
    /// in 1.
    pub fn clear(&self, clerk: &mut Clerk, id: u64) -> bool
        requires own { clerk.old.directory ≡ self.now }
        ensures own { clerk.new.directory ≡ self.now }
        ensures answer { Clears id clerk.old clerk.new result }
    {
        let seat = &mut clerk.seat;
        let group = self.plan().group_of(id);
        let turn = self.look_at_turn(seat, group);
        if turn % 2 == 0 {
            return false;
        }
        self.close(seat, group, turn);
        true
    }

    /// Takes a way's name and then its hint, in 3 steps. A way without a name keeps none.
    pub fn unname(&self, clerk: &mut Clerk, way: u32)
        requires own { clerk.old.directory ≡ self.now }
        requires way { way < ways self.now.plan }
        ensures own { clerk.new.directory ≡ self.now }
        ensures answer { Unnames way clerk.old clerk.new }
    {
        let seat = &mut clerk.seat;
        self.unname_way(seat, way);
        self.hint(seat, way, 0);
    }

    /// The way that has the id's name, or none has it. The clerk knows this exactly. Takes the steps of
    /// `look_up`.
    pub fn way_of(&self, clerk: &mut Clerk, id: u64) -> Option<u32>
        requires own { clerk.old.directory ≡ self.now }
        requires id { 0 < id }
        ensures own { clerk.new.directory ≡ self.now }
        ensures answer { FindsWay id clerk.old clerk.new result }
    {
        self.scan(&mut clerk.seat, id)
    }

    /// The id that has a way, in 1 step, or none has it. The clerk knows this exactly.
    pub fn id_of(&self, clerk: &mut Clerk, way: u32) -> Option<u64>
        requires own { clerk.old.directory ≡ self.now }
        requires way { way < ways self.now.plan }
        ensures own { clerk.new.directory ≡ self.now }
        ensures answer { FindsId way clerk.old clerk.new result }
    {
        match self.look(&mut clerk.seat, way) {
            0 => None,
            id => Some(id),
        }
    }

    /// The turn of the id's group, whose claim is open, where no way has the id's name. Else a refusal.
    fn answer_claim(&self, seat: &mut Seat, id: u64) -> Result<u64, Refused>
        requires clerk { Sits self.now seat.old }
        requires number { (token seat.old).number ≡ 0 }
        requires id { 0 < id }
        ensures clerk { Sits self.now seat.new }
        ensures answer { AnswersClaim id (token seat.old) (token seat.new) result }
    {
        let group = self.plan().group_of(id);
        let turn = self.look_at_turn(seat, group);
        if turn % 2 == 0 {
            return Err(Refused::NoClaim);
        }
        if let Some(way) = self.scan(seat, id) {
            return Err(Refused::Named(way));
        }
        Ok(turn)
    }

    /// Gives the id, which no way has, a way, and closes the open claim of its group, which has this turn.
    /// Refuses by `Full` alone.
    fn give(&self, seat: &mut Seat, id: u64, turn: u64) -> Result<u32, Refused>
        requires clerk { Sits self.now seat.old }
        requires number { (token seat.old).number ≡ 0 }
        requires hints { HintsNames (token seat.old) }
        requires id { 0 < id }
        requires claim { HasClaim id turn (token seat.old) }
        ensures clerk { Sits self.now seat.new }
        ensures hints { HintsNames (token seat.new) }
        ensures gives { Gives id (token seat.old) (token seat.new) result }
    {
        let Some(way) = self.room_for(seat, id) else {
            return Err(Refused::Full);
        };
        let plan = self.plan();
        self.hint(seat, way, plan.hint_of(id));
        self.name(seat, way, id);
        self.close(seat, plan.group_of(id), turn);
        Ok(way)
    }

    /// A way of the id's that has no name.
    fn room_for(&self, seat: &mut Seat, id: u64) -> Option<u32>
        requires clerk { Sits self.now seat.old }
        requires number { (token seat.old).number ≡ 0 }
        requires hints { HintsNames (token seat.old) }
        ensures clerk { Sits self.now seat.new }
        ensures rooms { Rooms id (token seat.old) (token seat.new) result }
    {
        let plan = self.plan();
        let here = self.room_in(seat, plan.group_of(id));
        let there = self.room_in(seat, plan.second_of(id));
        chosen(here, there)
    }

    /// The ways of a group that have no name.
    fn room_in(&self, seat: &mut Seat, group: u32) -> Room
        requires clerk { Sits self.now seat.old }
        requires number { (token seat.old).number ≡ 0 }
        requires hints { HintsNames (token seat.old) }
        requires plan { IsPlan self.now.plan }
        requires group { group < self.now.plan.groups }
        ensures clerk { Sits self.now seat.new }
        ensures room { SeesRoom group (token seat.old) (token seat.new) result }
    {
        let free = fitting(self.look_at_hints(seat, group), 0);
        if free == 0 {
            return Room {
                way: None,
                count: 0,
            };
        }
        Room {
            way: Some(WAYS * group + last(free)),
            count: free.count_ones(),
        }
    }

    /// Gives a way without a name this hint, or takes it.
    fn hint(&self, seat: &mut Seat, way: u32, hint: u8)
        requires clerk { Sits self.now seat.old }
        requires number { (token seat.old).number ≡ 0 }
        requires way { way < ways self.now.plan }
        requires free { name_of (token seat.old).seen way ≡ 0 }
        ensures clerk { Sits self.now seat.new }
        ensures hints { SetsHint way hint (token seat.old) (token seat.new) }
    {
        let group = way / WAYS;
        let hints = self.look_at_hints(seat, group);
        self.write_hints(seat, group, with_hint(hints, way % WAYS, hint));
    }
}

// A way of an id's two groups, if any has no name.
fn chosen(here: Room, there: Room) -> Option<u32>
    ensures some { IfSome result (λ way. (here.way ≡ Some way) ⊎ (there.way ≡ Some way)) }
    ensures none { result ≡ None → (here.way ≡ None) × (there.way ≡ None) }
{
    if here.count >= AMPLE || here.count >= there.count {
        here.way.or(there.way)
    } else {
        there.way.or(here.way)
    }
}
