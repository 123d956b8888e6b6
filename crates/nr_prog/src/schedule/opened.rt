//! A schedule's machine once it is opened: the step machine, for numbers of any size.
ghost use Rattle.std.specs.Prelude.{◌≡◌, true, false, IfOk, IfErr, MatchOption};
ghost use Rattle.nr_model.specs.Maps.{SetFits};
ghost use Rattle.nr_core.specs.Story.{call_of};
ghost use Rattle.nr_core.specs.Machine.{next_state, arrive_answer, read_answer, depart_answer, ask_answer, find_again_answer, go_answer};
ghost use Rattle.nr_core.specs.declared.calls.WriterCall.TheVariants as calls;
ghost use Rattle.nr_core.specs.Refusals.{has_reader, has_key};
ghost use Rattle.nr_text.specs.Grammar.{within};
ghost use Rattle.nr_text.specs.Opening.{is_in_limits};
ghost use Rattle.nr_prog.specs.ScheduleOpened.{answer_opened_schedule, by_machine, number_now, start, start_with, opened_schedule};
ghost use Rattle.nr_prog.specs.declared.schedule.answer.StepAnswer.TheVariants as answers;

use crate::schedule::answer::{StepAnswer, StepRefusal, WriterStep};
use crate::schedule::command::Command;
use nr_core::{Arrived, AskReply, Core, Refusal, Step, WriterCall};
use nr_model::OpenFault;
use nr_text::{GivenBatch, GivenRows, Opening};
use std::alloc::{AllocError, Global};
use std::marker::Model;

/// The step machine of an opened schedule.
#[derive(Drop)]
pub(crate) struct Opened {
    core: Core,
    keys: u32,
}

impl Model for Opened {
    ghost use Rattle.nr_core.specs.States.{State};
    ghost use Rattle.std.specs.Prelude.{◌≡◌};
    ghost use Rattle.nr_prog.specs.ScheduleOpened.{IsLimited};

    ghost Value = { State };

    ghost view = { λ schedule. schedule.core };

    ghost invariant = { λ schedule. (schedule.keys ≡ schedule.core.shape.keys) × IsLimited schedule.core.shape };
}

impl Opened {
    ghost use Rattle.nr_core.specs.States as machine;

    /// The machine that an opening within the limits opens.
    pub(crate) fn open(alloc: Global, opening: &Opening) -> Result<Opened, AllocError>
        requires { is_in_limits opening.now ≡ true }
        ensures { IfOk result (λ schedule. schedule ≡ opened_schedule opening.now) }
    {
        let shape = opening.shape();
        match Core::open_with(alloc, &shape) {
            Ok(core) => Ok(Opened {
                core,
                keys: shape.keys,
            }),
            Err(OpenFault::Memory) => Err(AllocError),
            Err(OpenFault::BadSize) => unreachable!(),
        }
    }

    /// The answer to a command, or the first refusal that fits. A step of the writer's is put into
    /// the room for it.
    pub(crate) fn answer<'a>(
        &mut self,
        command: &Command<'_>,
        tried: &'a mut Result<Step, Refusal>,
    ) -> Result<StepAnswer<'a>, StepRefusal>
        ensures { answer_opened_schedule self.old command.now ≡ (result, self.new) }
    {
        match command {
            Command::Open(_) => Err(StepRefusal::Bad),
            Command::Arrive { reader, key } => {
                let found = self.arrive(*reader, *key)?;
                Ok(StepAnswer::Arrived(found))
            }
            Command::Read { reader, index } => {
                let word = self.read(*reader, *index)?;
                Ok(StepAnswer::Word(word))
            }
            Command::Depart { reader } => {
                self.depart(*reader)?;
                Ok(StepAnswer::Ok)
            }
            Command::Ask { reader, key } => {
                let reply = self.ask(*reader, *key)?;
                Ok(StepAnswer::Asked(reply))
            }
            Command::Again { reader, key } => {
                let same = self.find_again(*reader, *key)?;
                Ok(StepAnswer::Again(same))
            }
            Command::Find { key } => self.find(*key, tried),
            Command::Fill { key, rows } => self.fill(*key, None, rows, tried),
            Command::FillAs { key, number, rows } => self.fill(*key, Some(*number), rows, tried),
            Command::Update { key, batch } => self.update(*key, batch, tried),
            Command::Replace { key, rows } => self.replace(*key, rows, tried),
            Command::Evict { key } => self.evict(*key, tried),
            Command::Cancel { key } => self.cancel(*key, tried),
            Command::Go => self.go(tried),
        }
    }

    fn arrive(&mut self, reader: u64, key: u64) -> Result<Arrived, Refusal>
        ensures answer { result ≡ arrive_answer self.old reader key }
        ensures new { self.new ≡ next_state self.old (machine.Arrive reader key) }
    {
        let reader = self.small(reader)?;
        let key = self.small(key)?;
        self.core.arrive(reader, key)
    }

    fn read(&mut self, reader: u64, index: u64) -> Result<u64, Refusal>
        ensures answer { result ≡ read_answer self.old reader index }
        ensures new { self.new ≡ next_state self.old (machine.Read reader index) }
    {
        let reader = self.small(reader)?;
        self.core.read(reader, index)
    }

    fn depart(&mut self, reader: u64) -> Result<(), Refusal>
        ensures answer { result ≡ depart_answer self.old reader }
        ensures new { self.new ≡ next_state self.old (machine.Depart reader) }
    {
        let reader = self.small(reader)?;
        self.core.depart(reader)
    }

    fn ask(&mut self, reader: u64, key: u64) -> Result<AskReply, Refusal>
        ensures answer { result ≡ ask_answer self.old reader key }
        ensures new { self.new ≡ next_state self.old (machine.Ask reader key) }
    {
        let reader = self.small(reader)?;
        let key = self.small(key)?;
        self.core.ask(reader, key)
    }

    fn find_again(&mut self, reader: u64, key: u64) -> Result<bool, Refusal>
        ensures answer { result ≡ find_again_answer self.old reader key }
        ensures new { self.new ≡ next_state self.old (machine.FindAgain reader key) }
    {
        let reader = self.small(reader)?;
        let key = self.small(key)?;
        self.core.find_again(reader, key)
    }

    /// A fill that answers the request of that number, or else of the key's ticket number as it stands.
    fn fill<'a>(
        &mut self,
        key: u64,
        number: Option<u64>,
        rows: &GivenRows<'_>,
        tried: &'a mut Result<Step, Refusal>,
    ) -> Result<StepAnswer<'a>, StepRefusal>
        ensures { MatchOption number
            (start_with self.old (calls.Fill key (number_now self.old key)) (within self.old.shape.rows rows.now) ≡ (result, self.new))
            (λ number. start_with self.old (calls.Fill key number) (within self.old.shape.rows rows.now) ≡ (result, self.new)) }
    {
        let Some(rows) = rows.within(self.core.rows()) else {
            return Err(StepRefusal::TooMany);
        };
        let key = self.small(key)?;
        let number = match number {
            Some(number) => number,
            None => self.number(key),
        };
        self.start(&WriterCall::Fill(key, number, *rows), tried)
    }

    fn find<'a>(
        &mut self,
        key: u64,
        tried: &'a mut Result<Step, Refusal>,
    ) -> Result<StepAnswer<'a>, StepRefusal>
        ensures { start self.old (calls.Find key) ≡ (result, self.new) }
    {
        let key = self.small(key)?;
        self.start(&WriterCall::Find(key), tried)
    }

    fn update<'a>(
        &mut self,
        key: u64,
        batch: &GivenBatch<'_>,
        tried: &'a mut Result<Step, Refusal>,
    ) -> Result<StepAnswer<'a>, StepRefusal>
        ensures { start self.old (calls.Update key batch.now) ≡ (result, self.new) }
    {
        let key = self.small(key)?;
        self.start(&WriterCall::Update(key, *batch.batch()), tried)
    }

    fn replace<'a>(
        &mut self,
        key: u64,
        rows: &GivenRows<'_>,
        tried: &'a mut Result<Step, Refusal>,
    ) -> Result<StepAnswer<'a>, StepRefusal>
        ensures { start_with self.old (calls.Replace key) (within self.old.shape.rows rows.now) ≡ (result, self.new) }
    {
        let Some(rows) = rows.within(self.core.rows()) else {
            return Err(StepRefusal::TooMany);
        };
        let key = self.small(key)?;
        self.start(&WriterCall::Replace(key, *rows), tried)
    }

    fn evict<'a>(
        &mut self,
        key: u64,
        tried: &'a mut Result<Step, Refusal>,
    ) -> Result<StepAnswer<'a>, StepRefusal>
        ensures { start self.old (calls.Evict key) ≡ (result, self.new) }
    {
        let key = self.small(key)?;
        self.start(&WriterCall::Evict(key), tried)
    }

    fn cancel<'a>(
        &mut self,
        key: u64,
        tried: &'a mut Result<Step, Refusal>,
    ) -> Result<StepAnswer<'a>, StepRefusal>
        ensures { start self.old (calls.Cancel key) ≡ (result, self.new) }
    {
        let key = self.small(key)?;
        self.start(&WriterCall::Cancel(key), tried)
    }

    fn start<'a>(
        &mut self,
        call: &WriterCall,
        tried: &'a mut Result<Step, Refusal>,
    ) -> Result<StepAnswer<'a>, StepRefusal>
        requires fits { SetFits self.old.shape.rows (call_of call.now) }
        ensures answer { start self.old call.now ≡ (result, self.new) }
    {
        *tried = self.core.start(call);
        let step = WriterStep::of(tried)?;
        Ok(StepAnswer::Writer(step))
    }

    fn go<'a>(
        &mut self,
        tried: &'a mut Result<Step, Refusal>,
    ) -> Result<StepAnswer<'a>, StepRefusal>
        ensures answer { result ≡ by_machine answers.Writer (go_answer self.old) }
        ensures new { self.new ≡ next_state self.old machine.Go }
    {
        *tried = self.core.go();
        let step = WriterStep::of(tried)?;
        Ok(StepAnswer::Writer(step))
    }

    /// The number of a key's requests as it stands, and 0 of a key that isn't there.
    fn number(&self, key: u32) -> u64
        ensures { result ≡ number_now self.now key }
    {
        if key < self.keys {
            self.core.number(key)
        } else {
            0
        }
    }

    /// The number of a reader or key, unless it is too large for any that the machine has.
    fn small(&self, number: u64) -> Result<u32, Refusal>
        ensures ok { IfOk result (λ small. small ≡ number) }
        ensures err { IfErr result (λ why. (why ≡ Refusal.OutOfRange) × (has_reader self.now.shape number ≡ false) × (has_key self.now.shape number ≡ false)) }
    {
        // Nothing at run time: the proof reads here that the machine has few readers and keys.
        let _limited = &self.core;
        u32::try_from(number).map_err(|_| Refusal::OutOfRange)
    }
}
