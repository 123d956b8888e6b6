//! What a map's handles know of whether its writer was closed. Their word is private to this module, whose
//! functions make one step each.
ghost use Rattle.std.specs.Prelude.{◌≡◌, IfOk};
ghost use Rattle.nr_c.specs.Closings.{Closes, Hears, IsNewWatch, Looks};

use crate::codes::{NR_CLOSED, NR_ROWS};
use atomic_table::{Play, Seat, Table, TableRule};
use std::alloc::{AllocError, Global};
use std::marker::Model;
use std::sync::Arc;

/// For contracts alone, which see it as the data of that name. No value of it is made.
struct View;

impl Model for View {
    ghost use Rattle.nr_c.specs.Closings.{Visit, new_visit};

    ghost Value = { Visit };

    ghost view = { λ _. new_visit };
}

struct Rule;

impl TableRule<(), View, ()> for Rule {
    ghost use Rattle.nr_c.specs.Closings.{SaysClosed, new_visit};

    ghost holds = { λ _. SaysClosed };

    ghost first = { λ _. new_visit };
}

struct Enter;

impl Play<(), View> for Enter {
    ghost use Rattle.nr_c.specs.Closings.{has_entered};

    ghost then = { has_entered };
}

struct Look;

impl Play<(), View> for Look {
    ghost use Rattle.nr_c.specs.Closings.{has_looked};

    ghost then = { has_looked };
}

struct Close;

impl Play<(), View> for Close {
    ghost use Rattle.nr_c.specs.Closings.{has_closed};

    ghost then = { has_closed };
}

/// One word, which is 1 once the writer was closed.
#[derive(Drop)]
struct Word {
    table: Table<(), View, (), Rule, Global>,
}

impl Model for Word {
    ghost use Rattle.std.specs.Prelude.{◌≡◌};
    ghost use Rattle.atomic_table.specs.Seated.{TableId};

    ghost Value = { TableId };

    ghost view = { λ word. word.table.shared.table_id };

    ghost invariant = { λ word. word.table.shared.table_id.words ≡ 1 };
}

/// A handle's share of that word, and what it knows by it.
#[derive(Drop)]
pub struct Watch {
    word: Arc<Word, Global>,
    seat: Seat<(), View>,
}

impl Model for Watch {
    ghost use Rattle.std.specs.Prelude.{◌≡◌};
    ghost use Rattle.nr_c.specs.Closings.{Watched, watched_by};

    ghost Value = { Watched };

    ghost view = { λ watch. watched_by watch.seat };

    ghost invariant = { λ watch. watch.seat.table_id ≡ watch.word.value };
}

impl Watch {
    /// The writer's, of a new map.
    pub fn open(alloc: Global) -> Result<Watch, AllocError>
        ensures { IfOk result (λ watch. IsNewWatch watch) }
    {
        let (table, seat) = Table::of_words(alloc, &[0], &())?;
        let word = Arc::new(alloc, Word { table }).map_err(|_| AllocError)?;
        Ok(Watch { word, seat })
    }

    /// A reader's, of the same map.
    pub fn share(&self) -> Result<Watch, AllocError>
        ensures { IfOk result (λ watch. IsNewWatch watch × (watch.word ≡ self.now.word)) }
    {
        let word = Arc::try_clone(&self.word)?;
        let (_, seat) = word.table.shared.load_new_seat::<Enter>(0);
        Ok(Watch { word, seat })
    }

    /// Whether the writer was closed.
    pub fn is_closed(&mut self) -> bool
        ensures { Looks self.old self.new result }
    {
        self.word.table.shared.load::<Look>(&mut self.seat, 0) == 1
    }

    /// What a reader is told where it was answered so: rows, without a look; or that the writer was closed, and else
    /// what it was answered.
    pub fn heard(&mut self, answer: u32) -> u32
        ensures { Hears answer result self.old self.new }
    {
        if answer != NR_ROWS && self.is_closed() {
            NR_CLOSED
        } else {
            answer
        }
    }

    /// Tells all handles that the writer is closed.
    pub fn close(&mut self)
        ensures { Closes self.old self.new }
    {
        self.word.table.shared.store::<Close>(&mut self.seat, 0, 1);
    }
}
