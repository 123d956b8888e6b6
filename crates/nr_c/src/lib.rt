//! The running map for programs that aren't written in Rattle: a static library whose functions C
//! calls. There is no algorithm here. Each function calls one of the map's and states its clauses
//! again, of the token that a handle leads to; so the history that all callers share is the same
//! one whichever language its callers are written in.
//!
//! C has a handle for each reader, one for the writer and one for what remains of a map, of a queue
//! of requests one for each poster and one for the taker, of a map over ids one for each reader and
//! one for the writer, and of a cache one for each reader and one for its store. A handle is one word, the place of a
//! token on the heap or none, and contracts see the token. What C owes is each function's
//! `requires`, and stands beside it in the header too: a handle is in the hands of one call at a time.
//! What costs next to nothing to test is tested, as whether a handle is live and a key one of the map's.
#![tactic(auto)]

mod cache_codes;
mod cache_finds;
mod cache_flight;
mod cache_flights;
mod cache_handle;
mod cache_lend;
mod cache_looks;
mod cache_open;
mod cache_reader_handle;
mod cache_reader_lend;
mod cache_shape;
mod cache_side;
mod cache_takes;
mod cache_values;
mod codes;
mod ending;
mod handle;
mod handle_lend;
mod id_choices;
mod id_codes;
mod id_invalidations;
mod id_many;
mod id_many_first;
mod id_open;
mod id_pins;
mod id_reader_handle;
mod id_reader_lend;
mod id_reader_side;
mod id_reads;
mod id_reclaims;
mod id_rows;
mod id_shape;
mod id_upqueries;
mod id_writer_handle;
mod id_writer_lend;
mod id_writer_side;
mod id_writes;
mod kept;
mod kept_upquery;
mod layout;
mod ledger;
mod many;
mod many_first;
mod open;
mod parts;
mod pins;
mod poster_handle;
mod poster_lend;
mod poster_side;
mod posts;
mod queues;
mod reader_handle;
mod reader_lend;
mod reader_side;
mod reads;
mod reclaims;
mod remains;
mod remains_handle;
mod remains_lend;
mod remains_side;
mod rows;
mod sizes;
mod slots;
mod taker_handle;
mod taker_lend;
mod taker_side;
mod version;
mod watch;
mod writer_handle;
mod writer_lend;
mod writer_side;
mod writes;
