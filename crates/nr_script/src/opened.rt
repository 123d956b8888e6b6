//! A script that was opened: a map, and what stands for its keys on the script's lines.
ghost use Rattle.std.specs.Prelude.{◌≡◌, ◌<◌, ◌≤◌, ◌-◌, length, true, IfOk, OnOk, Ok};
ghost use Rattle.nr_text.specs.Dialogue.{IsOutcome};
ghost use Rattle.nr_model.specs.Maps.{SetFits, key_count};
ghost use Rattle.nr_model.specs.declared.calls.Call.TheVariants as model;
ghost use Rattle.nr_script.specs.WriterCalls.{model_call, writer_key};
ghost use Rattle.nr_script.specs.declared.command.Command.TheVariants as command;
ghost use Rattle.nr_text.specs.Opening.{is_in_limits};
ghost use Rattle.nr_script.specs.Opened.{AnswersCommand, adds_key, answer_opened_script, called, found_by_reader, found_key, found_reader, found_set, script_has_reader, with_found};

use crate::alone::{Alone, Answer, WriterCall};
use crate::answer::ScriptRefusal;
use crate::command::{Command, KeyWord};
use crate::keys::Keys;
use nr_model::{OpenFault, RowSet};
use nr_text::{GivenRows, LineError, Opening};
use std::alloc::{AllocError, Global};
use std::marker::Model;

/// An opened script over a running map whose tokens it holds. It can't be dropped: it must be
/// closed.
pub(crate) struct Opened {
    keys: Keys,
    map: Alone,
}

impl Model for Opened {
    ghost use Rattle.nr_script.specs.Opened as script;

    ghost Value = { script.Opened };

    ghost use Rattle.nr_script.specs.Opened.{NamesFit};
    ghost use Rattle.nr_model.specs.Maps.{key_count};

    ghost view = { λ inside. record { keys = inside.keys; state = inside.map } };

    ghost invariant = { λ inside. NamesFit inside.keys (key_count inside.map.map) };
}

impl Opened {
    ghost use Rattle.nr_script.specs.Opened as script;

    /// A map of holes, whose keys stand on lines by their names or by their numbers.
    pub(crate) fn open(alloc: Global, named: bool, sizes: &Opening) -> Result<Opened, AllocError>
        requires { is_in_limits sizes.now ≡ true }
        ensures { IfOk result (λ opened. opened ≡ script.opened_script named sizes.now) }
    {
        let shape = sizes.shape();
        let keys = Keys::open(alloc, named, shape.keys)?;
        match Alone::open(alloc, &shape) {
            Ok(map) => Ok(Opened { keys, map }),
            Err(OpenFault::Memory) => Err(AllocError),
            Err(OpenFault::BadSize) => unreachable!(),
        }
    }

    /// The script ends, and with it what its readers have pinned.
    pub(crate) fn close(self) {
        let Opened { keys: _, map } = self;
        map.close();
    }

    /// The answer to a command, or the first refusal that fits. Rows that it tells are written into
    /// the set.
    pub(crate) fn answer<'a>(
        &mut self,
        command: &Command<'_>,
        found: &'a mut RowSet,
    ) -> Result<Answer<'a>, LineError<ScriptRefusal>>
        ensures { AnswersCommand self.old command.now result self.new }
    {
        match command {
            Command::Open { .. } => Err(LineError::Refused(ScriptRefusal::Bad)),
            Command::Find { reader, key } => self.find(*reader, key, found),
            Command::Ask { reader, key } => self.ask(*reader, key),
            Command::Fill { key, rows } => self.fill_by_own(key, rows, found),
            Command::FillAs { key, number, rows } => self.fill_by(key, *number, rows, found),
            Command::Update { key, batch } => {
                let key = self.key(key)?;
                Ok(self.call(&WriterCall::Update(key, batch.batch()), found))
            }
            Command::Replace { key, rows } => self.replace(key, rows, found),
            Command::Evict { key } => {
                let key = self.key(key)?;
                Ok(self.call(&WriterCall::Evict(key), found))
            }
            Command::Cancel { key } => {
                let key = self.key(key)?;
                Ok(self.call(&WriterCall::Cancel(key), found))
            }
            Command::Look { key } => {
                let key = self.key(key)?;
                Ok(self.call(&WriterCall::Find(key), found))
            }
            Command::Pin { reader, key } => self.pin(*reader, key),
            Command::Show { reader } => Ok(self.show(*reader, found)?),
            Command::Again { reader, key } => self.again(*reader, key, found),
            Command::Unpin { reader } => Ok(self.unpin(*reader)?),
        }
    }

    /// A fill by the key's ticket number.
    fn fill_by_own<'a>(
        &mut self,
        word: &KeyWord<'_>,
        rows: &GivenRows<'_>,
        found: &'a mut RowSet,
    ) -> Result<Answer<'a>, LineError<ScriptRefusal>>
        ensures { AnswersCommand self.old (command.Fill word.now rows.now) result self.new }
    {
        let key = self.key(word)?;
        let number = self.map.number(key);
        Ok(self.fill(key, number, rows, found)?)
    }

    /// A fill by a number that the line tells.
    fn fill_by<'a>(
        &mut self,
        word: &KeyWord<'_>,
        number: u64,
        rows: &GivenRows<'_>,
        found: &'a mut RowSet,
    ) -> Result<Answer<'a>, LineError<ScriptRefusal>>
        ensures { AnswersCommand self.old (command.FillAs word.now number rows.now) result self.new }
    {
        let key = self.key(word)?;
        Ok(self.fill(key, number, rows, found)?)
    }

    /// A fill that answers the request of that number, unless there are too many rows.
    fn fill<'a>(
        &mut self,
        key: u32,
        number: u64,
        rows: &GivenRows<'_>,
        found: &'a mut RowSet,
    ) -> Result<Answer<'a>, ScriptRefusal>
        requires key { key < key_count self.old.state.map }
        ensures { with_found (found_set self.old rows.now, self.old) (λ rows fits. called fits (model.Fill key number rows)) ≡ (result, self.new) }
    {
        match rows.within(self.map.rows()) {
            Some(rows) => Ok(self.call(&WriterCall::Fill(key, number, rows), found)),
            None => Err(ScriptRefusal::TooMany),
        }
    }

    /// A replacement, unless there are too many rows.
    fn replace<'a>(
        &mut self,
        word: &KeyWord<'_>,
        rows: &GivenRows<'_>,
        found: &'a mut RowSet,
    ) -> Result<Answer<'a>, LineError<ScriptRefusal>>
        ensures { AnswersCommand self.old (command.Replace word.now rows.now) result self.new }
    {
        let key = self.key(word)?;
        let Some(rows) = rows.within(self.map.rows()) else {
            return Err(LineError::Refused(ScriptRefusal::TooMany));
        };
        Ok(self.call(&WriterCall::Replace(key, rows), found))
    }

    /// A call of the writer's at one of the map's keys.
    fn call<'a>(&mut self, call: &WriterCall<'_>, found: &'a mut RowSet) -> Answer<'a>
        requires key { writer_key call.now < key_count self.old.state.map }
        requires fits { SetFits self.old.state.map.bound (model_call call.now) }
        ensures { called self.old (model_call call.now) ≡ (Ok result, self.new) }
    {
        self.map.call(call, found)
    }

    fn find<'a>(
        &mut self,
        reader: u64,
        word: &KeyWord<'_>,
        found: &'a mut RowSet,
    ) -> Result<Answer<'a>, LineError<ScriptRefusal>>
        ensures { AnswersCommand self.old (command.Find reader word.now) result self.new }
    {
        let key = self.key_by_reader(reader, word)?;
        Ok(
            self.map
                .find(place(reader), key, found)
                .map_err(ScriptRefusal::from)?,
        )
    }

    fn ask(
        &mut self,
        reader: u64,
        word: &KeyWord<'_>,
    ) -> Result<Answer<'static>, LineError<ScriptRefusal>>
        ensures { AnswersCommand self.old (command.Ask reader word.now) result self.new }
    {
        let key = self.key_by_reader(reader, word)?;
        Ok(
            self.map
                .ask(place(reader), key)
                .map_err(ScriptRefusal::from)?,
        )
    }

    fn pin(
        &mut self,
        reader: u64,
        word: &KeyWord<'_>,
    ) -> Result<Answer<'static>, LineError<ScriptRefusal>>
        ensures { AnswersCommand self.old (command.Pin reader word.now) result self.new }
    {
        let key = self.key_by_reader(reader, word)?;
        Ok(
            self.map
                .pin(place(reader), key)
                .map_err(ScriptRefusal::from)?,
        )
    }

    fn show<'a>(&mut self, reader: u64, found: &'a mut RowSet) -> Result<Answer<'a>, ScriptRefusal>
        ensures { answer_opened_script self.old (command.Show reader) ≡ (result, self.new) }
    {
        self.check_reader(reader)?;
        Ok(self.map.show(place(reader), found)?)
    }

    fn again<'a>(
        &mut self,
        reader: u64,
        word: &KeyWord<'_>,
        found: &'a mut RowSet,
    ) -> Result<Answer<'a>, LineError<ScriptRefusal>>
        ensures { AnswersCommand self.old (command.Again reader word.now) result self.new }
    {
        let key = self.key_by_reader(reader, word)?;
        Ok(
            self.map
                .again(place(reader), key, found)
                .map_err(ScriptRefusal::from)?,
        )
    }

    fn unpin(&mut self, reader: u64) -> Result<Answer<'static>, ScriptRefusal>
        ensures { answer_opened_script self.old (command.Unpin reader) ≡ (result, self.new) }
    {
        self.check_reader(reader)?;
        Ok(self.map.unpin(place(reader))?)
    }

    /// The key that a word stands for. A name that is new gets the next number.
    fn key(&mut self, word: &KeyWord<'_>) -> Result<u32, LineError<ScriptRefusal>>
        ensures found { IsOutcome (found_key self.old word.now) (adds_key self.old.keys word.now) result self.new }
        ensures within { IfOk result (λ key. key < key_count self.new.state.map) }
        ensures kept { self.new ≡ record self.old { keys = self.new.keys } }
    {
        let count = self.map.keys();
        self.keys.key(count, word, Ok(()))
    }

    /// The same, for a reader.
    fn key_by_reader(
        &mut self,
        reader: u64,
        word: &KeyWord<'_>,
    ) -> Result<u32, LineError<ScriptRefusal>>
        ensures found { IsOutcome (found_by_reader self.old reader word.now) (adds_key self.old.keys word.now) result self.new }
        ensures key { IfOk result (λ key. key < key_count self.new.state.map) }
        ensures reader { OnOk result ((0 < reader) × (reader ≤ length self.new.state.pins)) }
        ensures kept { self.new ≡ record self.old { keys = self.new.keys } }
    {
        let count = self.map.keys();
        let checked = self.check_reader(reader);
        self.keys.key(count, word, checked)
    }

    fn has_reader(&self, reader: u64) -> bool
        ensures { result ≡ script_has_reader self.now reader }
    {
        0 < reader && reader <= u64::from(self.map.readers())
    }

    fn check_reader(&self, reader: u64) -> Result<(), ScriptRefusal>
        ensures found { result ≡ found_reader self.now reader }
        ensures within { OnOk result ((0 < reader) × (reader ≤ length self.now.state.pins)) }
    {
        if self.has_reader(reader) {
            Ok(())
        } else {
            Err(ScriptRefusal::NoReader)
        }
    }
}

/// The place in the map of a reader, which lines number from 1.
fn place(reader: u64) -> usize
    requires { 0 < reader }
    ensures { result ≡ reader - 1 }
{
    reader as usize - 1
}
