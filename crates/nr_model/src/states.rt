//! The state of one key.
ghost use Rattle.std.specs.Prelude.{◌≡◌};
ghost use Rattle.nr_model.specs.Maps.{is_filled_key, number_of};

use crate::rows::RowSet;

/// The last ticket number that a key can have.
pub const LAST_NUMBER: u64 = 4_194_303;

/// A key is missing, missing with an upquery under way, or filled. In each state it has its ticket
/// number: that of its next request, of the one under way, or of the one that was filled.
#[derive(Clone, Copy, Debug)]
pub enum KeyState {
    Hole(u64),
    Asked(u64),
    Rows(u64, RowSet),
}

impl KeyState {
    /// Whether the key has rows.
    pub fn is_filled(&self) -> bool
        ensures { result ≡ is_filled_key self.now }
    {
        matches!(self, KeyState::Rows(_, _))
    }

    /// The key's ticket number, 0 to 4,194,303 in a map.
    pub fn number(&self) -> u64
        ensures { result ≡ number_of self.now }
    {
        match self {
            KeyState::Hole(number) | KeyState::Asked(number) => *number,
            KeyState::Rows(number, _) => *number,
        }
    }
}
