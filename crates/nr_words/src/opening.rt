//! The words of a new map.
ghost use Rattle.std.specs.Prelude.{◌≡◌, ◌<◌, ◌≤◌, ◌^◌, ◌++◌, replicate, IfOk};
ghost use Rattle.nr_model.specs.declared.rows.TheConstants.{MAX_ROWS};
ghost use Rattle.nr_words.specs.Opening.{opening_words};

use crate::key_words::hole_word;
use crate::layout::Layout;
use std::alloc::{AllocError, Global};

/// The words of a new map in their layout: every key a hole with the first ticket number, which is
/// below 2^22, and every slot's departures the first count, any u64. Behind the layout lie `behind`
/// words more, each 0. Takes all memory of the words at once.
pub fn opening_words(
    alloc: Global,
    layout: Layout,
    first_count: u64,
    first_number: u64,
    behind: u64,
) -> Result<Vec<u64>, AllocError>
    requires rows { layout.rows ≤ MAX_ROWS }
    requires number { first_number < 2 ^ 22 }
    requires few { behind < 2 ^ 40 }
    ensures { IfOk result (λ words. words.items ≡ opening_words layout first_count first_number ++ replicate behind 0) }
{
    let content_words = layout.content_words() as usize;
    let mut words = Vec::with_capacity(alloc, (layout.total() + behind) as usize)?;
    words.resize(layout.keys as usize, hole_word(first_number, false))?;
    for _slot in 0..layout.slots {
        words.push(first_count)?;
        words.resize(words.len() + content_words, 0)?;
    }
    words.resize(words.len() + behind as usize, 0)?;
    Ok(words)
}
