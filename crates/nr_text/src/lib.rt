//! Lines of text answered one by one, from any reader to any writer, and the grammar that they share.
//! What answers lines is a `Responder`; `serve` reads, cuts, refuses what isn't plain, and says what was
//! written also where a read, a write or memory fails. Scripts and schedules share words, numbers, rows,
//! signed rows, opening lines, and how the map's replies are spelled.
#![tactic(auto)]

mod fault;
mod given;
mod input;
mod limits;
mod line;
mod opening;
mod output;
mod responder;
mod rows;
mod spelling;
mod words;

pub use fault::{LineError, RunFault};
pub use given::{GivenBatch, GivenRows, LineRoom};
pub use input::INPUT_LIMIT;
pub use limits::{MAX_KEYS, MAX_NUMBER, MAX_READERS, MAX_ROWS, MAX_SLOTS};
pub use opening::Opening;
pub use output::{set_text, write_all};
pub use responder::{Responder, serve};
pub use rows::{batch, set, within};
pub use spelling::{ReplyWord, Rows};
pub use words::{Words, number};
