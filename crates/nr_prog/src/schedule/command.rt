//! What a line of a schedule commands.
ghost use Rattle.std.specs.Prelude.{◌≡◌, ℕ, List, Result, option_map};
ghost use Rattle.nr_model.specs.declared.rows.Row.{Row};
ghost use Rattle.nr_model.specs.declared.rows.TooMany.{TooMany};
ghost use Rattle.nr_prog.specs.declared.schedule.command.Command.{Command};
ghost use Rattle.nr_prog.specs.declared.schedule.command.Command.TheVariants.{FillAs, Update};
ghost use Rattle.nr_prog.specs.ScheduleCommands.{schedule_command, by_writer, one_number, two_numbers};
ghost use Rattle.nr_text.specs.Grammar.{words, number, filling, filling_as, updating};
ghost use Rattle.nr_text.specs.Words.{words_left};

use nr_text::{GivenBatch, GivenRows, LineRoom, Opening, Words, batch, number, set};

/// What a line of a schedule asks for, where it fits the grammar. Its numbers may be out of range.
#[derive(Drop)]
pub(crate) enum Command<'a> {
    Open(Opening),
    Arrive {
        reader: u64,
        key: u64,
    },
    Read {
        reader: u64,
        index: u64,
    },
    Depart {
        reader: u64,
    },
    Ask {
        reader: u64,
        key: u64,
    },
    Again {
        reader: u64,
        key: u64,
    },
    /// This and the next six begin a call of the writer.
    Find {
        key: u64,
    },
    Fill {
        key: u64,
        rows: GivenRows<'a>,
    },
    FillAs {
        key: u64,
        number: u64,
        rows: GivenRows<'a>,
    },
    Update {
        key: u64,
        batch: GivenBatch<'a>,
    },
    Replace {
        key: u64,
        rows: GivenRows<'a>,
    },
    Evict {
        key: u64,
    },
    Cancel {
        key: u64,
    },
    Go,
}

/// The command of a line, or none where it doesn't fit the grammar. A set or a batch that the line
/// gives is put into the room for it.
pub(crate) fn parse<'a>(line: &'a [u8], given: &'a mut LineRoom) -> Option<Command<'a>>
    ensures { result ≡ schedule_command (words line.now) }
{
    let mut words = Words::new(line);
    let name = words.next()?;
    if name == b"open".as_slice() {
        let opening = Opening::parse(words)?;
        return Some(Command::Open(opening));
    }
    if name == b"arrive".as_slice() {
        let (reader, key) = two_numbers(words)?;
        return Some(Command::Arrive { reader, key });
    }
    if name == b"read".as_slice() {
        let (reader, index) = two_numbers(words)?;
        return Some(Command::Read { reader, index });
    }
    if name == b"depart".as_slice() {
        let reader = one_number(words)?;
        return Some(Command::Depart { reader });
    }
    if name == b"ask".as_slice() {
        let (reader, key) = two_numbers(words)?;
        return Some(Command::Ask { reader, key });
    }
    if name == b"again".as_slice() {
        let (reader, key) = two_numbers(words)?;
        return Some(Command::Again { reader, key });
    }
    if name == b"writer".as_slice() {
        return by_writer(words, given);
    }
    if name == b"go".as_slice() && words.next().is_none() {
        return Some(Command::Go);
    }
    None
}

fn by_writer<'a>(mut words: Words<'a>, given: &'a mut LineRoom) -> Option<Command<'a>>
    ensures { result ≡ by_writer (words_left words.entry) }
{
    let name = words.next()?;
    if name == b"find".as_slice() {
        let key = one_number(words)?;
        return Some(Command::Find { key });
    }
    if name == b"fill".as_slice() {
        let (key, rows) = key_and_rows(words, given)?;
        return Some(Command::Fill { key, rows });
    }
    if name == b"fill-as".as_slice() {
        return filling_as(words, given);
    }
    if name == b"update".as_slice() {
        return updating(words, given);
    }
    if name == b"replace".as_slice() {
        let (key, rows) = key_and_rows(words, given)?;
        return Some(Command::Replace { key, rows });
    }
    if name == b"evict".as_slice() {
        let key = one_number(words)?;
        return Some(Command::Evict { key });
    }
    if name == b"cancel".as_slice() {
        let key = one_number(words)?;
        return Some(Command::Cancel { key });
    }
    None
}

fn key_and_rows<'a>(mut words: Words<'a>, given: &'a mut LineRoom) -> Option<(u64, GivenRows<'a>)>
    ensures { (made : ℕ → Result (List Row) TooMany → Command) → filling number made (words_left words.entry) ≡ option_map (λ (key, rows). made key rows) result }
{
    let key = number(words.next()?)?;
    let rows = given.put_rows(set(words)?);
    Some((key, rows))
}

fn filling_as<'a>(mut words: Words<'a>, given: &'a mut LineRoom) -> Option<Command<'a>>
    ensures { result ≡ filling_as number FillAs (words_left words.entry) }
{
    let word = words.next()?;
    let spelled = words.next()?;
    let key = number(word)?;
    let number = number(spelled)?;
    let rows = given.put_rows(set(words)?);
    Some(Command::FillAs { key, number, rows })
}

fn updating<'a>(mut words: Words<'a>, given: &'a mut LineRoom) -> Option<Command<'a>>
    ensures { result ≡ updating number Update (words_left words.entry) }
{
    let key = number(words.next()?)?;
    let batch = given.put_batch(batch(words)?);
    Some(Command::Update { key, batch })
}

fn one_number(mut words: Words<'_>) -> Option<u64>
    ensures { (made : ℕ → Command) → one_number made (words_left words.entry) ≡ option_map made result }
{
    let word = words.next()?;
    if words.next().is_some() {
        return None;
    }
    number(word)
}

fn two_numbers(mut words: Words<'_>) -> Option<(u64, u64)>
    ensures { (made : ℕ → ℕ → Command) → two_numbers made (words_left words.entry) ≡ option_map (λ (first, second). made first second) result }
{
    let first = words.next()?;
    let second = words.next()?;
    if words.next().is_some() {
        return None;
    }
    let first = number(first)?;
    let second = number(second)?;
    Some((first, second))
}
