//! The rule of the table, and what each kind of step tells.
ghost use Rattle.nr_core.specs.declared.calls.WriterCall.{WriterCall};
ghost use Rattle.nr_core.specs.declared.calls.WriterCall.TheVariants.{Evict};

use crate::board::Plan;
use crate::two_seats::TakingIn;
use crate::view::View;
use atomic_table::{Join, Play, Split, TableRule};
use std::marker::{Brand, PhantomData};

pub struct Rule;

impl TableRule<(), View, Plan> for Rule {
    ghost use Rattle.nr_board.specs.Views.{opener};
    ghost use Rattle.nr_board.specs.Rule.{Kept};

    ghost holds = { λ plan. Kept plan.shape };

    ghost first = { opener };
}

/// The writer makes a reader.
pub struct Seats;

impl Split<View> for Seats {
    ghost use Rattle.nr_board.specs.Views.{with_reader, next_reader};

    ghost left = { with_reader };

    ghost right = { next_reader };
}

pub struct Asks;

impl Play<(), View> for Asks {
    ghost use Rattle.nr_board.specs.Plays.{has_asked};

    ghost then = { has_asked };
}

pub struct Arrives;

impl Play<(), View> for Arrives {
    ghost use Rattle.nr_board.specs.Plays.{has_arrived};

    ghost then = { has_arrived };
}

/// A reader that holds nothing looks a key up.
pub struct LooksUp;

impl Play<(), View> for LooksUp {
    ghost use Rattle.nr_board.specs.WordPlays.{has_looked_up};

    ghost then = { has_looked_up };
}

/// A reader's word says something else, or nothing.
pub struct Says;

impl Play<(), View> for Says {
    ghost use Rattle.nr_board.specs.WordPlays.{has_said};

    ghost then = { has_said };
}

/// A second look, at the key of the slot that the reader's word announces.
pub struct Confirms;

impl Play<(), View> for Confirms {
    ghost use Rattle.nr_board.specs.WordPlays.{has_confirmed};

    ghost then = { has_confirmed };
}

pub struct Reads;

impl Play<(), View> for Reads {
    ghost use Rattle.nr_board.specs.Plays.{has_read_word};

    ghost then = { has_read_word };
}

/// A reader that holds a slot finds a key again.
pub struct FindsAgain;

impl Play<(), View> for FindsAgain {
    ghost use Rattle.nr_board.specs.Plays.{has_found_again};

    ghost then = { has_found_again };
}

pub struct Departs;

impl Play<(), View> for Departs {
    ghost use Rattle.nr_board.specs.Plays.{has_departed};

    ghost then = { has_departed };
}

/// The call that a look begins, for the proof alone.
pub trait BegunCall {
    ghost call: { WriterCall };
}

impl BegunCall for Brand {
    ghost call = { Evict 0 };
}

pub struct Looks<G> {
    given: PhantomData<G>,
}

impl<G: BegunCall> Play<(), View> for Looks<G> {
    ghost use Rattle.nr_board.specs.Plays.{has_looked};

    ghost then = { has_looked G.call };
}

/// Every later step of a call but a put.
pub struct Goes;

impl Play<(), View> for Goes {
    ghost use Rattle.nr_board.specs.Plays.{has_gone};

    ghost then = { has_gone };
}

pub struct Puts;

impl Play<(), View> for Puts {
    ghost use Rattle.nr_board.specs.Plays.{has_put};

    ghost then = { has_put };
}

/// A load that only learns.
pub struct Sees;

impl Play<(), View> for Sees {
    ghost use Rattle.nr_board.specs.Learning.{has_learned};

    ghost then = { has_learned };
}

/// A load ahead, of which its token keeps what was loaded.
pub struct Nears;

impl Play<(), View> for Nears {
    ghost use Rattle.nr_board.specs.Ahead.{has_loaded};

    ghost then = { has_loaded };
}

/// A look at a key by a reader that lets nothing go for it.
pub struct LooksAhead;

impl Play<(), View> for LooksAhead {
    ghost use Rattle.nr_board.specs.Ahead.{has_looked_ahead};

    ghost then = { has_looked_ahead };
}

/// A load of a word of the set that was put into a slot last.
pub struct Recalls;

impl Play<(), View> for Recalls {
    ghost use Rattle.nr_board.specs.Recalls.{has_recalled};

    ghost then = { has_recalled };
}

/// A poll of a retired slot by a writer between two calls.
pub struct Probes;

impl Play<(), View> for Probes {
    ghost use Rattle.nr_board.specs.Reaping.{has_probed};

    ghost then = { has_probed };
}

/// A load of a reader's word by a writer between two calls.
pub struct Scans;

impl Play<(), View> for Scans {
    ghost use Rattle.nr_board.specs.Scans.{has_scanned};

    ghost then = { has_scanned };
}

/// A load of a reader's word by a search.
pub struct Searches;

impl Play<(), View> for Searches {
    ghost use Rattle.nr_board.specs.SearchPlays.{has_searched};

    ghost then = { has_searched };
}

/// A poll of a retired slot by a search in any order.
pub struct Tries;

impl Play<(), View> for Tries {
    ghost use Rattle.nr_board.specs.SearchPlays.{has_tried};

    ghost then = { has_tried };
}

/// The end of a search that found no slot.
pub struct GivesUp;

impl Play<(), View> for GivesUp {
    ghost use Rattle.nr_board.specs.SearchPlays.{has_given_up};

    ghost then = { has_given_up };
}

/// A note is made of what a token has seen, and taken in by another.
pub struct Notes;

impl Split<View> for Notes {
    ghost use Rattle.nr_board.specs.Notes.{has_noted, note_of};

    ghost left = { has_noted };

    ghost right = { note_of };
}

/// A token that took a note in makes another that says the same.
pub struct Retells;

impl Split<View> for Retells {
    ghost use Rattle.nr_board.specs.Notes.{has_noted, retold};

    ghost left = { λ view. has_noted view };

    ghost right = { retold };
}

impl Join<View> for Notes {
    ghost use Rattle.nr_board.specs.Notes.{spent, with_note};

    ghost both = { with_note };

    ghost spent = { spent };
}

/// A token hears a note.
pub struct Hears;

impl TakingIn<View> for Hears {
    ghost use Rattle.nr_board.specs.Learning.{has_heard};
    ghost use Rattle.nr_board.specs.Notes.{spent};

    ghost then = { has_heard };

    ghost spent = { spent };
}
