//! What a line asks for.
ghost use Rattle.std.specs.Prelude.{◌≡◌, List, ℕ, Result, option_map};
ghost use Rattle.nr_model.specs.declared.rows.Row.{Row};
ghost use Rattle.nr_model.specs.declared.rows.TooMany.{TooMany};
ghost use Rattle.std.specs.List.{list_all};
ghost use Rattle.nr_script.specs.declared.command.Command.{Command};
ghost use Rattle.nr_script.specs.declared.command.Command.TheVariants.{FillAs, Update};
ghost use Rattle.nr_script.specs.Commands.{script_command, reading, is_name_byte, key, reader_and_key, key_alone, reader_alone};
ghost use Rattle.nr_text.specs.Grammar.{words, number, filling, filling_as, updating};
ghost use Rattle.nr_text.specs.Words.{words_left};

use nr_text::{GivenBatch, GivenRows, LineRoom, Opening, Words, batch, number, set};
use std::marker::Model;

/// The word that stands for a key.
#[derive(Drop)]
pub(crate) struct KeyWord<'a> {
    bytes: &'a [u8],
}

impl<'a> Model for KeyWord<'a> {
    ghost use Rattle.std.specs.Prelude.{List, ℕ};

    ghost Value = { List ℕ };

    ghost use Rattle.std.specs.Prelude.{IsTrue};
    ghost use Rattle.std.specs.List.{list_all};
    ghost use Rattle.nr_script.specs.Commands.{is_name_byte};

    ghost view = { λ word. word.bytes.now };

    ghost invariant = { λ word. IsTrue (list_all is_name_byte word.bytes.now) };
}

impl KeyWord<'_> {
    /// The number that the word spells, if it spells one.
    pub(crate) fn number(&self) -> Option<u64>
        ensures { result ≡ number self.now }
    {
        number(self.bytes)
    }

    /// The name that the word is.
    pub(crate) fn name(&self) -> &str
        ensures { result.now ≡ self.now }
    {
        match str::from_utf8(self.bytes) {
            Ok(name) => name,
            Err(_) => unreachable!(),
        }
    }
}

/// What a line asks for, where it fits the grammar.
#[derive(Drop)]
pub(crate) enum Command<'a> {
    Open {
        named: bool,
        sizes: Opening,
    },
    Find {
        reader: u64,
        key: KeyWord<'a>,
    },
    Ask {
        reader: u64,
        key: KeyWord<'a>,
    },
    Fill {
        key: KeyWord<'a>,
        rows: GivenRows<'a>,
    },
    FillAs {
        key: KeyWord<'a>,
        number: u64,
        rows: GivenRows<'a>,
    },
    Update {
        key: KeyWord<'a>,
        batch: GivenBatch<'a>,
    },
    Replace {
        key: KeyWord<'a>,
        rows: GivenRows<'a>,
    },
    Evict {
        key: KeyWord<'a>,
    },
    Cancel {
        key: KeyWord<'a>,
    },
    Look {
        key: KeyWord<'a>,
    },
    Pin {
        reader: u64,
        key: KeyWord<'a>,
    },
    Show {
        reader: u64,
    },
    Again {
        reader: u64,
        key: KeyWord<'a>,
    },
    Unpin {
        reader: u64,
    },
}

/// The command of a line, or none where it doesn't fit the grammar. A set or a batch that the line
/// gives is put into the room for it.
pub(crate) fn parse<'a>(line: &'a [u8], given: &'a mut LineRoom) -> Option<Command<'a>>
    ensures { result ≡ script_command (words line.now) }
{
    let mut words = Words::new(line);
    let name = words.next()?;
    if name == b"open".as_slice() {
        let sizes = Opening::parse(words)?;
        return Some(Command::Open {
            named: false,
            sizes,
        });
    }
    if name == b"open-named".as_slice() {
        let sizes = Opening::parse(words)?;
        return Some(Command::Open { named: true, sizes });
    }
    if name == b"fill".as_slice() {
        let (key, rows) = key_and_rows(words, given)?;
        return Some(Command::Fill { key, rows });
    }
    if name == b"fill-as".as_slice() {
        return filling_as(words, given);
    }
    if name == b"update".as_slice() {
        return updating(words, given);
    }
    if name == b"replace".as_slice() {
        let (key, rows) = key_and_rows(words, given)?;
        return Some(Command::Replace { key, rows });
    }
    if name == b"evict".as_slice() {
        let key = key_alone(words)?;
        return Some(Command::Evict { key });
    }
    if name == b"cancel".as_slice() {
        let key = key_alone(words)?;
        return Some(Command::Cancel { key });
    }
    if name == b"look".as_slice() {
        let key = key_alone(words)?;
        return Some(Command::Look { key });
    }
    reading(name, words)
}

fn reading<'a>(name: &[u8], words: Words<'a>) -> Option<Command<'a>>
    ensures { result ≡ reading name.now (words_left words.entry) }
{
    if name == b"find".as_slice() {
        let (reader, key) = reader_and_key(words)?;
        return Some(Command::Find { reader, key });
    }
    if name == b"ask".as_slice() {
        let (reader, key) = reader_and_key(words)?;
        return Some(Command::Ask { reader, key });
    }
    if name == b"pin".as_slice() {
        let (reader, key) = reader_and_key(words)?;
        return Some(Command::Pin { reader, key });
    }
    if name == b"show".as_slice() {
        let reader = reader_alone(words)?;
        return Some(Command::Show { reader });
    }
    if name == b"again".as_slice() {
        let (reader, key) = reader_and_key(words)?;
        return Some(Command::Again { reader, key });
    }
    if name == b"unpin".as_slice() {
        let reader = reader_alone(words)?;
        return Some(Command::Unpin { reader });
    }
    None
}

fn reader_and_key(mut words: Words<'_>) -> Option<(u64, KeyWord<'_>)>
    ensures { (made : ℕ → List ℕ → Command) → reader_and_key made (words_left words.entry) ≡ option_map (λ (reader, key). made reader key) result }
{
    let spelled = words.next()?;
    let word = words.next()?;
    if words.next().is_some() {
        return None;
    }
    let reader = number(spelled)?;
    let key = key(word)?;
    Some((reader, key))
}

fn key_alone(mut words: Words<'_>) -> Option<KeyWord<'_>>
    ensures { (made : List ℕ → Command) → key_alone made (words_left words.entry) ≡ option_map made result }
{
    let word = words.next()?;
    if words.next().is_some() {
        return None;
    }
    key(word)
}

fn reader_alone(mut words: Words<'_>) -> Option<u64>
    ensures { (made : ℕ → Command) → reader_alone made (words_left words.entry) ≡ option_map made result }
{
    let reader = words.next()?;
    if words.next().is_some() {
        return None;
    }
    number(reader)
}

fn key(word: &[u8]) -> Option<KeyWord<'_>>
    ensures { result ≡ key word.now }
{
    if word.is_empty() || !is_name(word) {
        return None;
    }
    Some(KeyWord { bytes: word })
}

fn is_name(word: &[u8]) -> bool
    ensures { result ≡ list_all is_name_byte word.now }
{
    word.iter().all(|b| *b >= 33 && *b <= 126)
}

fn key_and_rows<'a>(
    mut words: Words<'a>,
    given: &'a mut LineRoom,
) -> Option<(KeyWord<'a>, GivenRows<'a>)>
    ensures { (made : List ℕ → Result (List Row) TooMany → Command) → filling key made (words_left words.entry) ≡ option_map (λ (name, rows). made name rows) result }
{
    let key = key(words.next()?)?;
    let rows = given.put_rows(set(words)?);
    Some((key, rows))
}

fn filling_as<'a>(mut words: Words<'a>, given: &'a mut LineRoom) -> Option<Command<'a>>
    ensures { result ≡ filling_as key FillAs (words_left words.entry) }
{
    let word = words.next()?;
    let spelled = words.next()?;
    let key = key(word)?;
    let number = number(spelled)?;
    let rows = given.put_rows(set(words)?);
    Some(Command::FillAs { key, number, rows })
}

fn updating<'a>(mut words: Words<'a>, given: &'a mut LineRoom) -> Option<Command<'a>>
    ensures { result ≡ updating key Update (words_left words.entry) }
{
    let key = key(words.next()?)?;
    let batch = given.put_batch(batch(words)?);
    Some(Command::Update { key, batch })
}
