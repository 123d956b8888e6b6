//! A row set in the content words of a slot: word 0 is the number of rows, and two words a row
//! follow it. How many words there are says for how many rows there is room.
ghost use Rattle.std.specs.Prelude.{◌≡◌, ◌<◌, ◌≤◌, ◌⊎◌, ◌↔◌, false, length, slice_index, Some, IsNone};
ghost use Rattle.nr_model.specs.Rows.{is_ascending};
ghost use Rattle.nr_model.specs.Padded.{padded};
ghost use Rattle.nr_words.specs.SetWords.{content_words, encode, decode, row_count, rows_of};

use crate::row_pairs::RowPairs;
use nr_model::{MAX_ROWS, RowRoom, RowSet};

/// The words that the largest set takes: the number of rows, and two words for each row.
pub const MAX_CONTENT_WORDS: usize = 2 * MAX_ROWS + 1;

/// Writes the words of the set, and 0 into those behind them. There must be room for the set's own.
pub fn encode(set: &RowSet, words: &mut [u64])
    requires { content_words (length set.now) ≤ length words.old }
    ensures new { words.new ≡ padded (length words.old) 0 (encode set.now) }
    ensures comes_back { decode words.new ≡ Some set.now }
{
    let rows = set.as_slice();
    words[0] = rows.len() as u64;
    for (place, row) in rows.iter().enumerate() {
        words[2 * place + 1] = row.a;
        words[2 * place + 2] = row.b;
    }
    words[2 * rows.len() + 1..].fill(0);
}

/// The word at that index of those that `encode` writes: 0 behind the set's own.
pub fn word_at(set: &RowSet, index: usize) -> u64
    ensures { result ≡ slice_index (encode set.now) index }
{
    let Some(behind) = index.checked_sub(1) else {
        return set.len() as u64;
    };
    match set.get(behind / 2) {
        Some(row) if behind % 2 == 0 => row.a,
        Some(row) => row.b,
        None => 0,
    }
}

/// The set that the words spell, of which there are at most 511. `None` where word 0 tells of more
/// rows than the words have room for, or where the rows don't ascend. Looks at word 0 and at the two
/// words of each row that it tells of.
pub fn decode(words: &[u64]) -> Option<RowSet>
    requires { length words.now ≤ MAX_CONTENT_WORDS }
    ensures set { result ≡ decode words.now }
    ensures none { IsNone result ↔ ((length words.now < content_words (row_count words.now)) ⊎ (is_ascending (rows_of words.now) ≡ false)) }
{
    let (count, rest) = words.split_first()?;
    if *count > (rest.len() / 2) as u64 {
        return None;
    }
    let count = *count as usize;
    let mut pairs = RowPairs {
        words: &rest[..2 * count],
    };
    if !pairs.is_ascending() {
        return None;
    }
    let mut set = RowSet::new();
    set.refill(count, &mut pairs);
    Some(set)
}
