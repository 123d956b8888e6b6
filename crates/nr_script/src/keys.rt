//! What stands for a key on the lines of a script.
ghost use Rattle.std.specs.Prelude.{◌≡◌, ◌<◌, ◌≤◌, IfOk, OnOk, Ok, Some};
ghost use Rattle.nr_text.specs.Dialogue.{IsOutcome};
ghost use Rattle.nr_script.specs.Opened.{NamesFit, adds_key, key_for_reader, keys_opened, name_error, numbered_key};

use crate::answer::ScriptRefusal;
use crate::command::KeyWord;
use nr_names::{NameFault, NameTable};
use nr_text::{LineError, MAX_KEYS};
use std::alloc::{AllocError, Global};

/// Keys stand on lines by their numbers, or by names.
#[derive(Drop)]
pub(crate) enum Keys {
    Numbered,
    Named(NameTable),
}

impl Keys {
    pub(crate) fn open(alloc: Global, named: bool, keys: u32) -> Result<Keys, AllocError>
        requires { (0 < keys) × (keys ≤ MAX_KEYS) }
        ensures ok { IfOk result (λ opened. opened ≡ keys_opened named keys) }
        ensures fits { IfOk result (λ opened. NamesFit opened keys) }
    {
        if !named {
            return Ok(Keys::Numbered);
        }
        match NameTable::open(alloc, keys) {
            Ok(names) => Ok(Keys::Named(names)),
            Err(_) => Err(AllocError),
        }
    }

    /// The key that a word stands for, of `count` keys, where the reader of its line is found. A word
    /// that can't stand for a key is refused before the reader, and any other after it. A name that is
    /// new gets the next number, and nothing else takes memory.
    pub(crate) fn key(
        &mut self,
        count: u32,
        word: &KeyWord<'_>,
        reader: Result<(), ScriptRefusal>,
    ) -> Result<u32, LineError<ScriptRefusal>>
        requires { NamesFit self.old count }
        ensures found { IsOutcome (key_for_reader reader self.old count word.now) (adds_key self.old word.now) result self.new }
        ensures reader { OnOk result (reader ≡ Ok tt) }
        ensures within { IfOk result (λ key. key < count) }
        ensures fits { NamesFit self.new count }
    {
        match self {
            Keys::Numbered => {
                let number = word.number().ok_or(ScriptRefusal::Bad)?;
                reader?;
                Ok(numbered_key(count, number)?)
            }
            Keys::Named(names) => {
                reader?;
                names.intern(word.name()).map_err(name_error)
            }
        }
    }
}

fn numbered_key(count: u32, number: u64) -> Result<u32, ScriptRefusal>
    ensures found { result ≡ numbered_key count (Some number) }
    ensures within { IfOk result (λ key. key < count) }
{
    if number < u64::from(count) {
        Ok(number as u32)
    } else {
        Err(ScriptRefusal::NoKey)
    }
}

// A word is never empty, so nothing else comes of a name.
fn name_error(fault: NameFault) -> LineError<ScriptRefusal>
    ensures { result ≡ name_error fault }
{
    match fault {
        NameFault::TooLong => LineError::Refused(ScriptRefusal::TooLong),
        NameFault::Full => LineError::Refused(ScriptRefusal::Full),
        NameFault::Memory => LineError::Memory,
        NameFault::Empty | NameFault::NoName => LineError::Refused(ScriptRefusal::Bad),
    }
}
