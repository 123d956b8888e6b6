//! How the reader map lies in 64-bit words: what a key's word says, how a row set lies in the
//! words of a slot, where each word stands in the table, and the words of a new map, which alone
//! take memory.
#![tactic(auto)]

mod key_words;
pub mod laws;
mod layout;
mod opening;
mod row_pairs;
mod set_words;

pub use key_words::{
    ARRIVE, COUNTS, KeyParts, hole_word, key_word, names, naming, parts, same_count,
};
pub use layout::Layout;
pub use opening::opening_words;
pub use set_words::{MAX_CONTENT_WORDS, decode, encode, word_at};
