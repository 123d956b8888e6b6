//! The program: what its arguments ask for, and what it tells of a fault.
ghost use Rattle.std.specs.Prelude.{◌≡◌, ◌≤◌, map, string_bytes, Ok, MatchResult};
ghost use Rattle.std.specs.Process.{exit_status};
ghost use Rattle.nr_prog.specs.Faults.{TellsLine, line_of, line_of_misuse};
ghost use Rattle.nr_prog.specs.Loads.{line_of_load, report_text, TellsLoad};
ghost use Rattle.nr_prog.specs.Program.{EndsTask, ReadsNothing};
ghost use Rattle.nr_prog.specs.Tasks.{IsRunnable, task, task_given};

use crate::arguments::task_given;
use crate::output::Output;
use crate::report::{report_of, report_status};
use crate::schedule::run_steps;
use crate::task::{Misuse, Task, task_of};
use nr_load::{LoadFault, LoadReport};
use nr_script::run;
use nr_text::RunFault;
use std::alloc::Global;
use std::env::Args;
use std::io;
use std::io::{Read, Write};
use std::process::ExitCode;
use std::sync::Wait;
use std::thread::Threads;

/// Runs the program on its process's arguments, and answers the status with which the process is to end.
///
/// The first argument is the program's name, and the others are words as `main_with` takes them. Arguments
/// that are no text, or for which there was no memory, are told by the line on the program's usage: 2.
pub fn main_of<T: Threads + Wait + Sync + AllocGlobal, R: Read, O: Output>(
    rt: &T,
    args: io::Result<Args>,
    reader: &mut R,
    output: &mut O,
) -> ExitCode
    ensures ends { EndsTask O.may_fail (task_given args) (exit_status result) (R.remaining reader.old) (R.remaining reader.new) (O.contents output.old) (O.contents output.new) }
    ensures unread { ReadsNothing (task_given args) → reader.new ≡ reader.old }
    ensures few { exit_status result ≤ 2 }
{
    let task = task_given(rt.alloc(), args);
    ExitCode::from(run_task(rt, rt.alloc(), task, reader, output))
}

/// Runs what the words after the program's name ask for, and answers the exit status.
///
/// Without words a script from the reader to the output, with the word `steps` a schedule: 0, or 1
/// after a fault, whose line it then writes as far as it can. With `load` and a seed, readers, keys and
/// gets, it runs a load with an open gate, and writes its report: 0 where each get was answered and the
/// account balances, else 1. With any other words it writes the line on its usage, or on the first
/// number of a load that is none or out of its limits: 2. A load and other words read nothing.
pub fn main_with<T: Threads + Wait + Sync, R: Read, O: Output>(
    rt: &T,
    alloc: Global,
    args: &[String],
    reader: &mut R,
    output: &mut O,
) -> u8
    ensures ends { EndsTask O.may_fail (task (map string_bytes args.now)) result (R.remaining reader.old) (R.remaining reader.new) (O.contents output.old) (O.contents output.new) }
    ensures unread { ReadsNothing (task (map string_bytes args.now)) → reader.new ≡ reader.old }
{
    run_task(rt, alloc, task_of(args), reader, output)
}

/// Does the task, and answers the exit status.
fn run_task<T: Threads + Wait + Sync, R: Read, O: Output>(
    rt: &T,
    alloc: Global,
    task: Task,
    reader: &mut R,
    output: &mut O,
) -> u8
    requires { IsRunnable task }
    ensures ends { EndsTask O.may_fail task result (R.remaining reader.old) (R.remaining reader.new) (O.contents output.old) (O.contents output.new) }
    ensures unread { ReadsNothing task → reader.new ≡ reader.old }
{
    match task {
        Task::Script => {
            let ran = run(alloc, reader, output);
            end_of_run(ran, output)
        }
        Task::Schedule => {
            let ran = run_steps(alloc, reader, output);
            end_of_run(ran, output)
        }
        Task::Load(plan) => match report_of(rt, alloc, &plan) {
            Ok(reported) => end_of_report(&reported.report, reported.text.as_str(), output),
            Err(fault) => end_with_line(1, line_of_load(fault), output),
        },
        Task::Explain(misuse) => end_with_line(2, line_of_misuse(misuse), output),
    }
}

/// The end with this status, whose line is written as far as it can be.
fn end_with_line<O: Output>(status: u8, line: &[u8], output: &mut O) -> u8
    ensures { (result ≡ status) × TellsLine O.may_fail (O.contents output.old) (O.contents output.new) line.now }
{
    let _ = output.tell(line);
    status
}

/// The end after a run. The line of a fault is written.
fn end_of_run<O: Output>(ran: Result<(), RunFault>, output: &mut O) -> u8
    ensures { MatchResult ran
        (λ _. (result ≡ 0) × (O.contents output.new ≡ O.contents output.old))
        (λ fault. (result ≡ 1) × TellsLine O.may_fail (O.contents output.old) (O.contents output.new) (line_of fault)) }
{
    match ran {
        Ok(()) => 0,
        Err(fault) => end_with_line(1, line_of(fault), output),
    }
}

/// The end after a load with this report. A report that can't be written is a fault.
fn end_of_report<O: Output>(report: &LoadReport, text: &str, output: &mut O) -> u8
    requires { text.now ≡ report_text report.now }
    ensures { TellsLoad O.may_fail (Ok report.now) result (O.contents output.old) (O.contents output.new) }
{
    match output.tell(text.as_bytes()) {
        Ok(()) => report_status(report),
        Err(_) => end_with_line(1, line_of(RunFault::Write), output),
    }
}

/// The line that the program writes of a run's fault.
fn line_of(fault: RunFault) -> &'static [u8]
    ensures { result.now ≡ line_of fault }
{
    match fault {
        RunFault::Read => b"nr: the input could not be read\n",
        RunFault::Write => b"nr: the output could not be written\n",
        RunFault::Memory => b"nr: no memory\n",
        RunFault::TooMuch => b"nr: the input is over 268435456 bytes\n",
    }
}

/// The line that the program writes of a load's fault.
fn line_of_load(fault: LoadFault) -> &'static [u8]
    ensures { result.now ≡ line_of_load fault }
{
    match fault {
        LoadFault::Memory => b"nr: no memory\n",
        LoadFault::Thread => b"nr: a thread could not be started\n",
        LoadFault::Barred => b"nr: a gate did not open\n",
        LoadFault::WrongRows => b"nr: a get gave wrong rows\n",
    }
}

/// How the program is used, or what a number of a load must be.
fn line_of_misuse(misuse: Misuse) -> &'static [u8]
    ensures { result.now ≡ line_of_misuse misuse }
{
    match misuse {
        Misuse::Words => b"nr: usage: nr, nr steps, nr load SEED READERS KEYS GETS\n",
        Misuse::Seed => b"nr: seed must be 0 to 18446744073709551615\n",
        Misuse::Readers => b"nr: readers must be 1 to 1024\n",
        Misuse::Keys => b"nr: keys must be 1 to 65536\n",
        Misuse::Gets => b"nr: gets must be 0 to 1000000\n",
    }
}
