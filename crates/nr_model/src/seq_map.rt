//! The partial map that one caller uses.
ghost use Rattle.std.specs.Prelude.{◌≡◌, ◌≤◌, ◌<◌, ◌↔◌, ◌⊎◌, ℕ, length, IfOk, Err};
ghost use Rattle.nr_model.specs.Maps.{last_number, opening, state_of, reply_to, next, call_key, key_count, SetFits, StateFits};
ghost use Rattle.nr_model.specs.Sizes.{IsBadSize};

use crate::calls::{Call, Reply};
use crate::heads::Head;
use crate::rows::{BLANK, DEFAULT_ROWS, MAX_ROWS, Row};
use crate::sizes::is_bad_size;
use crate::states::{KeyState, LAST_NUMBER};
use std::alloc::Global;
use std::marker::Model;
use thiserror::Error;

/// The largest number of keys of a map.
pub const MAX_KEYS: u32 = 65_536;

/// Why a map cannot be opened.
#[derive(Clone, Copy, Debug, PartialEq, Eq, Error)]
pub enum OpenFault {
    #[error("a size is out of its limits")]
    BadSize,
    #[error("out of memory")]
    Memory,
}

/// A map from key numbers to states, each a hole, asked for or filled, without threads. A key has
/// at most as many rows as was said when the map was opened.
#[derive(Drop)]
pub struct SeqMap {
    rows: u32,
    heads: Vec<Head>,
    cells: Vec<Row>,
}

impl Model for SeqMap {
    ghost use Rattle.nr_model.specs.Maps.{PartialMap};

    ghost Value = { PartialMap };

    ghost use Rattle.std.specs.Prelude.{◌≤◌, ◌<◌, length};
    ghost use Rattle.nr_model.specs.declared.rows.TheConstants.{MAX_ROWS};
    ghost use Rattle.nr_model.specs.declared.seq_map.TheConstants.{MAX_KEYS};
    ghost use Rattle.nr_model.specs.Runs.{states_in, AreRuns};

    ghost view = { λ map. record { bound = map.rows; states = states_in map.rows map.heads.items map.cells.items } };

    ghost invariant = { λ map. (0 < map.rows) × (map.rows ≤ MAX_ROWS) × (0 < length map.heads.items) × (length map.heads.items ≤ MAX_KEYS) × AreRuns map.rows map.heads.items map.cells.items };
}

impl SeqMap {
    /// A map of that many keys, each a hole with ticket number 0, that may have 15 rows each. Refused
    /// unless there are 1 to 65,536 keys, and then where there is no memory.
    pub fn open(alloc: Global, keys: u32) -> Result<SeqMap, OpenFault>
        ensures bad_size { (result ≡ Err OpenFault.BadSize) ↔ IsBadSize MAX_KEYS keys }
        ensures ok { IfOk result (λ map. map ≡ opening keys DEFAULT_ROWS 0) }
    {
        SeqMap::open_with(alloc, keys, 0, DEFAULT_ROWS)
    }

    /// A map of that many keys, each a hole with the first ticket number, that may have that many rows
    /// each. Refused unless there are 1 to 65,536 keys, the number is at most 4,194,303 and the
    /// rows are 1 to 255, and then where there is no memory.
    pub fn open_with(
        alloc: Global,
        keys: u32,
        first_number: u64,
        rows: u32,
    ) -> Result<SeqMap, OpenFault>
        ensures bad_size { (result ≡ Err OpenFault.BadSize) ↔ (IsBadSize MAX_KEYS keys ⊎ (last_number < first_number) ⊎ IsBadSize MAX_ROWS rows) }
        ensures ok { IfOk result (λ map. map ≡ opening keys rows first_number) }
    {
        if is_bad_size(MAX_KEYS, keys)
            || first_number > LAST_NUMBER
            || is_bad_size(MAX_ROWS as u32, rows)
        {
            return Err(OpenFault::BadSize);
        }
        let hole = Head::Hole(first_number);
        let heads = vec![in alloc; hole; keys as usize].map_err(|_| OpenFault::Memory)?;
        let room = keys as usize * rows as usize;
        let cells = vec![in alloc; BLANK; room].map_err(|_| OpenFault::Memory)?;
        Ok(SeqMap { rows, heads, cells })
    }

    /// How many keys the map has. They are numbered from 0.
    pub fn keys(&self) -> u32
        ensures value { result ≡ key_count self.now }
        ensures positive { 0 < result }
        ensures bounded { result ≤ MAX_KEYS }
    {
        self.heads.len() as u32
    }

    /// How many rows a key may have.
    pub fn rows(&self) -> u32
        ensures value { result ≡ self.now.bound }
        ensures positive { 0 < result }
        ensures bounded { result ≤ MAX_ROWS }
    {
        self.rows
    }

    /// The state of a key below `keys()`.
    pub fn state(&self, key: u32) -> KeyState
        requires { key < key_count self.now }
        ensures value { result ≡ state_of self.now key }
        ensures few { StateFits self.now.bound result }
    {
        let rows = self.rows as usize;
        let start = key as usize * rows;
        self.heads[key as usize].state(&self.cells[start..start + rows])
    }

    /// Carries out a call at a key below `keys()`, and answers it. A set that it brings has at
    /// most `rows()` rows. Takes no memory, and changes no other key.
    pub fn call(&mut self, call: &Call) -> Reply
        requires key { call_key call.now < key_count self.old }
        requires fits { SetFits self.old.bound call.now }
        ensures reply { result ≡ reply_to self.old call.now }
        ensures new { self.new ≡ next self.old call.now }
    {
        let key = call.key() as usize;
        let rows = self.rows as usize;
        let start = key * rows;
        let run = &mut self.cells[start..start + rows];
        self.heads[key].call(run, call)
    }
}
