//! Where each word lies in the table: the words of the keys first, and then a block for each slot,
//! which is its departure word and its content words.
ghost use Rattle.std.specs.Prelude.{◌≡◌, ◌<◌, ◌≤◌};
ghost use Rattle.nr_model.specs.declared.rows.TheConstants.{MAX_ROWS};
ghost use Rattle.nr_words.specs.SetWords.{content_words};
ghost use Rattle.nr_words.specs.Places.{KeyWord, Departures, Content, HasWord, place_of, slot_words, total_of};

/// The places of a map with that many keys and slots, each slot with room for that many rows, 1 to 255.
#[derive(Clone, Copy, Debug, PartialEq, Eq)]
pub struct Layout {
    pub keys: u32,
    pub slots: u32,
    pub rows: u32,
}

impl Layout {
    /// How many words there are.
    pub fn total(self) -> u64
        requires { self.rows ≤ MAX_ROWS }
        ensures { result ≡ total_of self }
    {
        self.block(self.slots)
    }

    /// How many content words a slot has.
    pub fn content_words(self) -> u32
        requires { self.rows ≤ MAX_ROWS }
        ensures { result ≡ content_words self.rows }
    {
        2 * self.rows + 1
    }

    /// The place of a key's word, for a key below `keys`.
    pub fn key(self, key: u32) -> u64
        requires { HasWord self (KeyWord key) }
        ensures place { result ≡ place_of self (KeyWord key) }
        ensures within { result < total_of self }
    {
        u64::from(key)
    }

    /// The place of a slot's departure word, for a slot below `slots`.
    pub fn departures(self, slot: u32) -> u64
        requires rows { self.rows ≤ MAX_ROWS }
        requires has { HasWord self (Departures slot) }
        ensures place { result ≡ place_of self (Departures slot) }
        ensures within { result < total_of self }
    {
        self.block(slot)
    }

    /// The place of a slot's content word, for a slot below `slots` and an index below
    /// `content_words`.
    pub fn content(self, slot: u32, index: u32) -> u64
        requires rows { self.rows ≤ MAX_ROWS }
        requires has { HasWord self (Content slot index) }
        ensures place { result ≡ place_of self (Content slot index) }
        ensures within { result < total_of self }
    {
        self.departures(slot) + 1 + u64::from(index)
    }

    /// Where the block of a slot begins, or of the slot that would be next.
    fn block(self, slot: u32) -> u64
        requires { self.rows ≤ MAX_ROWS }
        ensures { result ≡ place_of self (Departures slot) }
    {
        let slot_words = 1 + self.content_words();
        u64::from(self.keys) + u64::from(slot_words) * u64::from(slot)
    }
}
