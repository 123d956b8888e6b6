//! The rule of the table, and what each kind of step tells.
use crate::plan::Plan;
use crate::view::View;
use atomic_table::{Join, Play, Split, TableRule};

pub struct Rule;

impl TableRule<u64, View, Plan> for Rule {
    ghost use Rattle.nr_ids.specs.Rule.{Kept, opener};

    ghost holds = { Kept };

    ghost first = { opener };
}

/// The clerk makes a reader.
pub struct Seats;

impl Split<View> for Seats {
    ghost use Rattle.nr_ids.specs.Rule.{next_reader, with_reader};

    ghost left = { with_reader };

    ghost right = { next_reader };
}

/// A note is made of what a token has seen, and taken in by another.
pub struct Notes;

impl Split<View> for Notes {
    ghost use Rattle.nr_ids.specs.Rule.{counted, note_of};

    ghost left = { counted };

    ghost right = { note_of };
}

impl Join<View> for Notes {
    ghost use Rattle.nr_ids.specs.Rule.{spent, with_note};

    ghost both = { with_note };

    ghost spent = { spent };
}

/// A note is made of what the note told which a token took in last.
pub struct Retells;

impl Split<View> for Retells {
    ghost use Rattle.nr_ids.specs.Rule.{counted, retold};

    ghost left = { counted };

    ghost right = { retold };
}

pub struct LooksAtName;

impl Play<u64, View> for LooksAtName {
    ghost use Rattle.nr_ids.specs.Plays.{has_looked_at_name};

    ghost then = { has_looked_at_name };
}

pub struct LooksAtTurn;

impl Play<u64, View> for LooksAtTurn {
    ghost use Rattle.nr_ids.specs.Plays.{has_looked_at_turn};

    ghost then = { has_looked_at_turn };
}

pub struct LooksAtHints;

impl Play<u64, View> for LooksAtHints {
    ghost use Rattle.nr_ids.specs.Plays.{has_looked_at_hints};

    ghost then = { has_looked_at_hints };
}

/// A claim, or a look where the turn was another.
pub struct Claims;

impl Play<u64, View> for Claims {
    ghost use Rattle.nr_ids.specs.Plays.{has_claimed};

    ghost then = { has_claimed };
}

pub struct Names;

impl Play<u64, View> for Names {
    ghost use Rattle.nr_ids.specs.Plays.{has_named};

    ghost then = { has_named };
}

pub struct Unnames;

impl Play<u64, View> for Unnames {
    ghost use Rattle.nr_ids.specs.Plays.{has_unnamed};

    ghost then = { has_unnamed };
}

pub struct Clears;

impl Play<u64, View> for Clears {
    ghost use Rattle.nr_ids.specs.Plays.{has_cleared};

    ghost then = { has_cleared };
}

/// A load that tells no name and no turn: of a group's marks, or ahead.
pub struct Loads;

impl Play<u64, View> for Loads {
    ghost use Rattle.nr_ids.specs.Plays.{has_loaded};

    ghost then = { has_loaded };
}

pub struct MarksWay;

impl Play<u64, View> for MarksWay {
    ghost use Rattle.nr_ids.specs.Plays.{has_marked};

    ghost then = { has_marked };
}

pub struct TurnsOver;

impl Play<u64, View> for TurnsOver {
    ghost use Rattle.nr_ids.specs.Plays.{has_turned};

    ghost then = { has_turned };
}

pub struct WritesHints;

impl Play<u64, View> for WritesHints {
    ghost use Rattle.nr_ids.specs.Plays.{has_hinted};

    ghost then = { has_hinted };
}
