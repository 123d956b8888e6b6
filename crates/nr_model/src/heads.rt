//! What a map keeps of a key beside its rows, and what each call makes of it.
ghost use Rattle.std.specs.Prelude.{◌≡◌, ◌≤◌, ◌<◌, List, length, take, IsTrue, Ok, Err, IfOk, IfErr, OnErr};
ghost use Rattle.nr_model.specs.declared.rows.Row.{Row as SetRow};
ghost use Rattle.nr_model.specs.Rows.{is_ascending};
ghost use Rattle.nr_model.specs.Batches.{applied};
ghost use Rattle.nr_model.specs.Maps.{find_reply, ask_reply, fill_reply, update_reply, replace_reply, evict_reply, cancel_reply, asked, filled, updated, replaced, evicted, cancelled, reply_at, state_after, SetFits, StateFits};
ghost use Rattle.nr_model.specs.Runs.{state_in, IsKeptRun};

use crate::batches::{ApplyFault, Batch};
use crate::calls::{Call, Reply};
use crate::rows::{MAX_ROWS, Row, RowSet};
use crate::sorted_rows::SortedRows;
use crate::states::{KeyState, LAST_NUMBER};

/// The state of a key, with the number of its rows in place of the rows. Those stand in the cells
/// of the key's own run, of which there are as many as the key may have rows.
#[derive(Clone, Copy, Debug)]
pub enum Head {
    Hole(u64),
    Asked(u64),
    Rows(u64, usize),
}

// What a key takes at fifteen rows.
const _: () = prove!(size_of::<Head>() + 15 * size_of::<Row>() == 264);

impl Head {
    /// The key's state.
    pub fn state(&self, run: &[Row]) -> KeyState
        requires kept { IsKeptRun self.now run.now }
        requires room { length run.now ≤ MAX_ROWS }
        ensures value { result ≡ state_in self.now run.now }
        ensures few { StateFits (length run.now) result }
    {
        match *self {
            Head::Hole(number) => KeyState::Hole(number),
            Head::Asked(number) => KeyState::Asked(number),
            Head::Rows(number, len) => KeyState::Rows(number, RowSet::from_ordered(&run[..len])),
        }
    }

    /// Carries out a call at the key, and answers it.
    pub fn call(&mut self, run: &mut [Row], call: &Call) -> Reply
        requires kept { IsKeptRun self.old run.old }
        requires room { length run.old ≤ MAX_ROWS }
        requires fits { SetFits (length run.old) call.now }
        ensures reply { result ≡ reply_at (length run.old) call.now (state_in self.old run.old) }
        ensures new { state_in self.new run.new ≡ state_after (length run.old) call.now (state_in self.old run.old) }
        ensures kept { IsKeptRun self.new run.new }
    {
        match call {
            Call::Find(_) => self.find(run),
            Call::Ask(_) => self.ask(),
            Call::Fill(_, number, rows) => self.fill(run, *number, rows.as_slice()),
            Call::Update(_, batch) => self.update(run, batch),
            Call::Replace(_, rows) => self.replace(run, rows.as_slice()),
            Call::Evict(_) => self.evict(),
            Call::Cancel(_) => self.cancel(),
        }
    }

    fn find(&self, run: &[Row]) -> Reply
        requires kept { IsKeptRun self.now run.now }
        requires room { length run.now ≤ MAX_ROWS }
        ensures { result ≡ find_reply (state_in self.now run.now) }
    {
        match *self {
            Head::Hole(_) | Head::Asked(_) => Reply::Hole,
            Head::Rows(_, len) => Reply::Rows(RowSet::from_ordered(&run[..len])),
        }
    }

    fn ask(&mut self) -> Reply
        ensures reply { (run : List SetRow) → result ≡ ask_reply (state_in self.old run) }
        ensures new { (run : List SetRow) → state_in self.new run ≡ asked (state_in self.old run) }
        ensures kept { (run : List SetRow) → IsKeptRun self.old run → IsKeptRun self.new run }
    {
        match *self {
            Head::Hole(number) => {
                *self = Head::Asked(number);
                Reply::Send(number)
            }
            Head::Asked(_) => Reply::Waiting,
            Head::Rows(_, _) => Reply::Filled,
        }
    }

    fn fill(&mut self, run: &mut [Row], number: u64, rows: &[Row]) -> Reply
        requires kept { IsKeptRun self.old run.old }
        requires in_order { IsTrue (is_ascending rows.now) }
        requires fits { length rows.now ≤ length run.old }
        ensures reply { result ≡ fill_reply number (state_in self.old run.old) }
        ensures new { state_in self.new run.new ≡ filled number rows.now (state_in self.old run.old) }
        ensures kept { IsKeptRun self.new run.new }
    {
        match *self {
            Head::Hole(_) => Reply::NotAsked,
            Head::Asked(asked) if asked == number => {
                run[..rows.len()].copy_from_slice(rows);
                *self = Head::Rows(number, rows.len());
                Reply::Done
            }
            Head::Asked(_) => Reply::Stale,
            Head::Rows(_, _) => Reply::Already,
        }
    }

    fn update(&mut self, run: &mut [Row], batch: &Batch) -> Reply
        requires kept { IsKeptRun self.old run.old }
        requires room { length run.old ≤ MAX_ROWS }
        ensures reply { result ≡ update_reply (length run.old) batch.now (state_in self.old run.old) }
        ensures new { state_in self.new run.new ≡ updated (length run.old) batch.now (state_in self.old run.old) }
        ensures kept { IsKeptRun self.new run.new }
    {
        match *self {
            Head::Hole(_) | Head::Asked(_) => Reply::Dropped,
            Head::Rows(number, len) => match apply_in(run, len, batch) {
                Ok(left) => {
                    *self = Head::Rows(number, left);
                    Reply::Done
                }
                Err(ApplyFault::NoRow) => Reply::NoRow,
                Err(ApplyFault::TooMany) => Reply::TooMany,
            },
        }
    }

    fn replace(&mut self, run: &mut [Row], new: &[Row]) -> Reply
        requires kept { IsKeptRun self.old run.old }
        requires in_order { IsTrue (is_ascending new.now) }
        requires fits { length new.now ≤ length run.old }
        ensures reply { result ≡ replace_reply (state_in self.old run.old) }
        ensures new { state_in self.new run.new ≡ replaced new.now (state_in self.old run.old) }
        ensures kept { IsKeptRun self.new run.new }
    {
        let Head::Rows(number, _) = *self else {
            return Reply::Dropped;
        };
        run[..new.len()].copy_from_slice(new);
        *self = Head::Rows(number, new.len());
        Reply::Done
    }

    fn evict(&mut self) -> Reply
        ensures reply { (run : List SetRow) → result ≡ evict_reply (state_in self.old run) }
        ensures new { (run : List SetRow) → state_in self.new run ≡ evicted (state_in self.old run) }
        ensures kept { (run : List SetRow) → IsKeptRun self.old run → IsKeptRun self.new run }
    {
        match *self {
            Head::Hole(_) | Head::Asked(_) => Reply::Nothing,
            Head::Rows(number, _) => {
                *self = Head::Hole(number);
                Reply::Evicted
            }
        }
    }

    fn cancel(&mut self) -> Reply
        ensures reply { (run : List SetRow) → result ≡ cancel_reply (state_in self.old run) }
        ensures new { (run : List SetRow) → state_in self.new run ≡ cancelled (state_in self.old run) }
        ensures kept { (run : List SetRow) → IsKeptRun self.old run → IsKeptRun self.new run }
    {
        match *self {
            Head::Asked(number) if number < LAST_NUMBER => {
                *self = Head::Hole(number + 1);
                Reply::Cancelled
            }
            Head::Asked(_) => Reply::Worn,
            Head::Hole(_) | Head::Rows(_, _) => Reply::Nothing,
        }
    }
}

/// Applies a batch to the first rows of a run, and answers how many are left there; no more than
/// the run has cells.
fn apply_in(run: &mut [Row], len: usize, batch: &Batch) -> Result<usize, ApplyFault>
    requires within { len ≤ length run.old }
    requires in_order { IsTrue (is_ascending (take len run.old)) }
    requires room { length run.old ≤ MAX_ROWS }
    ensures ok { IfOk result (λ left. applied (length run.old) (take len run.old) batch.now ≡ Ok (take left run.new)) }
    ensures kept { IfOk result (λ left. (left ≤ length run.old) × IsTrue (is_ascending (take left run.new))) }
    ensures fault { IfErr result (λ fault. applied (length run.old) (take len run.old) batch.now ≡ Err fault) }
    ensures unchanged { OnErr result (run.new ≡ run.old) }
{
    let mut sorted = SortedRows::new();
    sorted.copy_from(&run[..len]);
    sorted.apply(batch, run.len() as u32)?;
    let left = sorted.as_slice();
    run[..left.len()].copy_from_slice(left);
    Ok(left.len())
}
