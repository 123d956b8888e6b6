//! The words of a line, and the numbers that they spell.
ghost use Rattle.std.specs.Prelude.{◌≡◌, [], ◌∷◌, ◌==◌, MatchOption, position};
ghost use Rattle.std.specs.Iterator.{YieldsFirstRef, item_count};
ghost use Rattle.nr_text.specs.Grammar.{words, number};
ghost use Rattle.nr_text.specs.Words.{words_left};

/// The words of a line that are left.
#[derive(Drop)]
pub struct Words<'a> {
    rest: Option<&'a [u8]>,
}

impl<'a> Words<'a> {
    /// All words of a line.
    pub fn new(line: &'a [u8]) -> Words<'a>
        ensures { words_left result ≡ words line.now }
    {
        Words { rest: Some(line) }
    }
}

impl<'a> Iterator for Words<'a> {
    type Item = &'a [u8];

    ghost next_gives = { YieldsFirstRef words_left };

    ghost remaining = { item_count words_left };

    fn next(&mut self) -> Option<&'a [u8]> {
        let (word, rest) = split_word(self.rest?);
        self.rest = rest;
        Some(word)
    }
}

/// The first word, and what stands behind the space after it, if one does.
fn split_word(line: &[u8]) -> (&[u8], Option<&[u8]>)
    ensures { let (word, behind) = result in MatchOption behind (words line.now ≡ word.now ∷ []) (λ rest. words line.now ≡ word.now ∷ words rest.now) }
{
    match place_of(b' ', line) {
        None => (line, None),
        Some(i) => (&line[..i], Some(&line[i + 1..])),
    }
}

/// Where a byte stands first.
pub(crate) fn place_of(byte: u8, bytes: &[u8]) -> Option<usize>
    ensures { result ≡ position (λ b. b == byte) bytes.now }
{
    bytes.iter().position(|b| *b == byte)
}

/// The number that 1 to 20 digits spell, where it is below 2^64.
pub fn number(word: &[u8]) -> Option<u64>
    ensures { result ≡ number word.now }
{
    if word.is_empty() || word.len() > 20 {
        return None;
    }
    let mut n = 0u128;
    for digit in word {
        if !digit.is_ascii_digit() {
            return None;
        }
        n = n * 10 + u128::from(*digit - b'0');
    }
    u64::try_from(n).ok()
}
