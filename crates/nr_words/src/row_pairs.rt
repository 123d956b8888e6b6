//! Rows in pairs of words.
ghost use Rattle.std.specs.Prelude.{◌≡◌, ◌<◌, ◌+◌, ◌*◌, length, slice_get, Some};
ghost use Rattle.nr_model.specs.Rows.{is_ascending};
ghost use Rattle.nr_words.specs.SetWords.{rows_in};

use nr_model::{Row, RowSource};

/// The rows that lie in these words, two words a row.
#[derive(Drop)]
pub struct RowPairs<'a> {
    pub words: &'a [u64],
}

impl RowPairs<'_> {
    /// Whether no row is below the one before it.
    pub fn is_ascending(&self) -> bool
        ensures { result ≡ is_ascending (rows_in self.now.words.now) }
    {
        for place in 1..self.words.len() / 2 {
            if self.row(place) < self.row(place - 1) {
                return false;
            }
        }
        true
    }

    /// The row at that place, from 0.
    fn row(&self, place: usize) -> Row
        requires { 2 * place + 1 < length self.now.words.now }
        ensures { slice_get (rows_in self.now.words.now) place ≡ Some result }
    {
        Row {
            a: self.words[2 * place],
            b: self.words[2 * place + 1],
        }
    }
}

impl RowSource for RowPairs<'_> {
    ghost use Rattle.std.specs.Prelude.{◌≡◌};
    ghost use Rattle.nr_words.specs.SetWords.{rows_in};

    ghost rows = { λ pairs. rows_in pairs.words.now };

    ghost is_ready = { λ pairs place. Unit {0} };

    ghost gave = { λ before count after. Unit {0} };

    fn give(&mut self, place: usize) -> Row {
        self.row(place)
    }

    ghost gave_none = { λ source. tt };

    ghost gave_more = { λ first mid last count given more. tt };
}
