//! One line, as far as it is kept.
ghost use Rattle.std.specs.Prelude.{◌≡◌, ◌≤◌, [], ◌∷◌, ◌++◌, true, false, List, ℕ, IsTrue, ◌↔◌, MatchOption, IfSome};
ghost use Rattle.std.specs.List.{list_all};
ghost use Rattle.nr_text.specs.Limits.{longest_line};
ghost use Rattle.nr_text.specs.Plain.{is_plain, is_printed};

/// The most bytes of a line, without its line feed.
const LINE_LIMIT: usize = 4096;

/// The bytes of a line, or that it has too many of them.
#[derive(Drop)]
pub(crate) struct Line {
    bytes: [u8; LINE_LIMIT],
    len: usize,
    is_too_long: bool,
    ghost within: { len ≤ longest_line },
}

impl Line {
    ghost use Rattle.nr_text.specs.Input.{StandsFor};

    pub(crate) fn new() -> Line
        ensures { StandsFor result [] }
    {
        Line {
            bytes: [0; LINE_LIMIT],
            len: 0,
            is_too_long: false,
        }
    }

    pub(crate) fn clear(&mut self)
        ensures { StandsFor self.new [] }
    {
        self.len = 0;
        self.is_too_long = false;
    }

    pub(crate) fn push(&mut self, byte: u8)
        ensures { (bytes : List ℕ) → StandsFor self.old bytes → StandsFor self.new (bytes ++ byte ∷ []) }
    {
        if self.is_too_long {
            return;
        }
        if self.len < LINE_LIMIT {
            self.bytes[self.len] = byte;
            self.len += 1;
        } else {
            self.is_too_long = true;
        }
    }

    pub(crate) fn is_empty(&self) -> bool
        ensures { (bytes : List ℕ) → StandsFor self.now bytes → (IsTrue result ↔ (bytes ≡ [])) }
    {
        !self.is_too_long && self.len == 0
    }

    /// The line's bytes, where it is plain: not too long, not empty, and all printed.
    pub(crate) fn plain(&self) -> Option<&[u8]>
        ensures text { (bytes : List ℕ) → StandsFor self.now bytes → MatchOption result (is_plain bytes ≡ false) (λ text. text.now ≡ bytes) }
        ensures plain { IfSome result (λ text. is_plain text.now ≡ true) }
    {
        if self.is_too_long || self.len == 0 {
            return None;
        }
        let text = &self.bytes[..self.len];
        if are_printed(text) { Some(text) } else { None }
    }
}

fn are_printed(text: &[u8]) -> bool
    ensures { result ≡ list_all is_printed text.now }
{
    text.iter().all(|b| *b >= 32 && *b <= 126)
}
