//! Laws over the definitions alone. Nothing runs here: each function's contract is the law.
ghost use Rattle.nr_prog.specs.ScheduleRuns.{ScheduleRuns};

/// Whatever the lines of a schedule are, its machine has run the events that they spell. So the laws
/// of the step machine over all lists of events speak of every schedule.
pub fn schedule_runs()
    ensures { ScheduleRuns }
{}
