//! The words of a map, and the operations of which each step is one.
ghost use Rattle.std.specs.Prelude.{◌≡◌, ◌≤◌, ◌<◌, ◌^◌, ◌++◌, [], ◌∷◌, length, slice_index, IfOk};
ghost use Rattle.nr_model.specs.declared.rows.TheConstants.{MAX_ROWS};
ghost use Rattle.nr_words.specs.Opening.{opening_words};
ghost use Rattle.nr_core.specs.Operations.{performed};
ghost use Rattle.nr_core.specs.declared.operation.Operation.TheVariants.{Load, Add, Or, Store, Swap};

mod trace;

use crate::operation::Operation;
use nr_words::{Layout, opening_words};
use std::alloc::{AllocError, Global};
use std::marker::Model;
use trace::Trace;

/// The words of a map, in their layout. Contracts see the operations that were made on them, too.
#[derive(Drop)]
pub struct Words {
    cells: Vec<u64>,
    trace: Trace,
}

impl Model for Words {
    ghost use Rattle.nr_core.specs.Operations.{Memory};

    ghost Value = { Memory };

    ghost view = { λ words. record { cells = words.cells.items; made = words.trace.made } };
}

impl Words {
    /// The words of a map whose keys are holes with the first number, and whose slots begin at the
    /// first count.
    pub fn open(
        alloc: Global,
        layout: Layout,
        first_count: u64,
        first_number: u64,
    ) -> Result<Words, AllocError>
        requires rows { layout.rows ≤ MAX_ROWS }
        requires number { first_number < 2 ^ 22 }
        ensures { IfOk result (λ words. words ≡ record {
          cells = opening_words layout first_count first_number;
          made = [];
        }) }
    {
        Ok(Words {
            cells: opening_words(alloc, layout, first_count, first_number, 0)?,
            trace: Trace::new(),
        })
    }

    /// The word at that index.
    pub fn load(&mut self, place: u64) -> u64
        requires { place < length self.old.cells }
        ensures found { result ≡ slice_index self.old.cells place }
        ensures new { self.new ≡ performed self.old (Load place) }
    {
        self.note(Operation::Load(place));
        self.cells[place as usize]
    }

    /// Adds to the word, which wraps, and answers what it was.
    pub fn fetch_add(&mut self, place: u64, amount: u64) -> u64
        requires { place < length self.old.cells }
        ensures found { result ≡ slice_index self.old.cells place }
        ensures new { self.new ≡ performed self.old (Add place amount) }
    {
        self.note(Operation::Add(place, amount));
        let word = self.cells[place as usize];
        self.cells[place as usize] = word.wrapping_add(amount);
        word
    }

    /// Sets bits of the word, and answers what it was.
    pub fn fetch_or(&mut self, place: u64, bits: u64) -> u64
        requires { place < length self.old.cells }
        ensures found { result ≡ slice_index self.old.cells place }
        ensures new { self.new ≡ performed self.old (Or place bits) }
    {
        self.note(Operation::Or(place, bits));
        let word = self.cells[place as usize];
        self.cells[place as usize] = word | bits;
        word
    }

    /// Writes the word.
    pub fn store(&mut self, place: u64, word: u64)
        requires { place < length self.old.cells }
        ensures { self.new ≡ performed self.old (Store place word) }
    {
        self.note(Operation::Store(place, word));
        self.cells[place as usize] = word;
    }

    /// Writes the word, and answers what it was.
    pub fn swap(&mut self, place: u64, word: u64) -> u64
        requires { place < length self.old.cells }
        ensures found { result ≡ slice_index self.old.cells place }
        ensures new { self.new ≡ performed self.old (Swap place word) }
    {
        self.note(Operation::Swap(place, word));
        let found = self.cells[place as usize];
        self.cells[place as usize] = word;
        found
    }

    /// Notes the operation, which is made next.
    fn note(&mut self, operation: Operation)
        ensures { self.new ≡ record self.old { made = self.old.made ++ operation ∷ [] } }
    {
        self.trace = self.trace.then(&operation);
    }
}
