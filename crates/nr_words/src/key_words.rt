//! A key's word: bit 0 says that the key is asked, bit 1 that it is filled, bits 2 to 23 are the
//! slot that it names or, where it isn't filled, its ticket number, and bits 24 to 63 count the readers
//! that arrived, modulo 2^40.
ghost use Rattle.std.specs.Prelude.{◌≡◌, ◌<◌, ◌^◌, ◌==◌, ◌&&◌, false};
ghost use Rattle.nr_words.specs.KeyWords.{hole_word, is_filled, key_word, naming, parts_of, same_count, slot_of};

/// What one more arrival adds to a key's word.
pub const ARRIVE: u64 = 1 << ARRIVALS_SHIFT;

/// A key's word counts arrivals modulo this.
pub const COUNTS: u64 = 1 << 40;

const FILLED_SHIFT: u32 = 1;

const SLOT_SHIFT: u32 = 2;

const SLOT_MASK: u64 = (1 << 22) - 1;

const ARRIVALS_SHIFT: u32 = 24;

/// What a key's word packs. `slot` is the ticket number of a key that isn't filled, and `ask` says
/// nothing of one that is.
#[derive(Clone, Copy, Debug, PartialEq, Eq)]
pub struct KeyParts {
    pub ask: bool,
    pub filled: bool,
    pub slot: u32,
    pub arrivals: u64,
}

/// The word that packs those parts: a slot below 2^22, and arrivals below 2^40.
pub fn key_word(parts: KeyParts) -> u64
    requires slot { parts.slot < 2 ^ 22 }
    requires arrivals { parts.arrivals < 2 ^ 40 }
    ensures word { result ≡ key_word parts }
    ensures comes_back { parts_of result ≡ parts }
{
    (parts.arrivals << ARRIVALS_SHIFT)
        | (u64::from(parts.slot) << SLOT_SHIFT)
        | (u64::from(parts.filled) << FILLED_SHIFT)
        | u64::from(parts.ask)
}

/// The word of a key that isn't filled, asked for or not: its ticket number, below 2^22, and no
/// arrivals.
pub fn hole_word(number: u64, ask: bool) -> u64
    requires { number < 2 ^ 22 }
    ensures word { result ≡ hole_word number ask }
    ensures comes_back { parts_of result ≡ record { ask = ask; filled = false; slot = number; arrivals = 0 } }
{
    key_word(KeyParts {
        ask,
        filled: false,
        slot: number as u32,
        arrivals: 0,
    })
}

/// The word that fills a key with a slot below 2^22 whose departures are these. Its arrivals begin
/// there, modulo 2^40, so that by the counts nobody holds the slot.
pub fn naming(slot: u32, departed: u64) -> u64
    requires { slot < 2 ^ 22 }
    ensures { result ≡ naming slot departed }
{
    key_word(KeyParts {
        ask: false,
        filled: true,
        slot,
        arrivals: departed % COUNTS,
    })
}

/// Whether a word is filled and names that slot, which is below 2^22.
pub fn names(word: u64, slot: u32) -> bool
    requires { slot < 2 ^ 22 }
    ensures { result ≡ (is_filled word && (slot_of word == slot)) }
{
    // All below the arrivals but ASK, which means nothing in a filled word.
    word % ARRIVE - word % 2 == naming(slot, 0)
}

/// The parts of any word.
pub fn parts(word: u64) -> KeyParts
    ensures parts { result ≡ parts_of word }
    ensures comes_back { key_word result ≡ word }

    ensures slot { result.slot < 2 ^ 22 }
    ensures arrivals { result.arrivals < 2 ^ 40 }
{
    KeyParts {
        ask: word & 1 == 1,
        filled: (word >> FILLED_SHIFT) & 1 == 1,
        slot: ((word >> SLOT_SHIFT) & SLOT_MASK) as u32,
        arrivals: word >> ARRIVALS_SHIFT,
    }
}

/// Whether the arrivals at a slot and its departures agree as far as a key's word counts, which
/// is modulo 2^40.
pub fn same_count(arrivals: u64, departures: u64) -> bool
    ensures { result ≡ same_count arrivals departures }
{
    arrivals % COUNTS == departures % COUNTS
}
