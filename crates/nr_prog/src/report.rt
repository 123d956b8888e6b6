//! A load's report, as it is written.
ghost use Rattle.std.specs.Prelude.{◌≡◌, ◌<◌, ◌≤◌, IfOk, IfErr, OnOk, Ok, Err, string_bytes};
ghost use Rattle.nr_prog.specs.Loads.{MayComeTo, balance_word, report_status, report_text};

use nr_load::{LoadFault, LoadReport, Plan, run_load};
use nr_serve::OpenGate;
use nr_text::set_text;
use std::alloc::Global;
use std::fmt;
use std::fmt::Write;
use std::sync::Wait;
use std::thread::Threads;

/// A load's report, and its three lines.
#[derive(Drop)]
pub(crate) struct Reported {
    pub(crate) report: LoadReport,
    pub(crate) text: String,
}

/// 0 where each get was answered and the account balances, else 1.
pub(crate) fn report_status(report: &LoadReport) -> u8
    ensures { result ≡ report_status report.now }
{
    if report.answered != report.gets {
        return 1;
    }
    if report.balance() { 0 } else { 1 }
}

fn balance_word(report: &LoadReport) -> &'static str
    ensures { result.now ≡ balance_word report.now }
{
    if report.balance() { "ok" } else { "off" }
}

/// A report, as it is written.
#[derive(Drop)]
struct ReportLines<'a>(&'a LoadReport);

impl fmt::Display for ReportLines<'_> {
    ghost use Rattle.std.specs.Prelude.{Some};
    ghost use Rattle.nr_prog.specs.Loads.{report_text};

    ghost output = { λ lines. Some (report_text lines.0.now) };

    fn fmt<W: fmt::Write>(&self, f: &mut fmt::Formatter<W>) -> fmt::Result {
        let gets = self.0.gets;
        let answered = self.0.answered;
        let balance = balance_word(self.0);
        write!(f, "gets {gets}\nanswered {answered}\nbalance {balance}\n")
    }
}

/// Runs the load with an open gate, and spells its report. No memory for the report's text is a
/// fault of the load.
pub(crate) fn report_of<T: Threads + Wait + Sync>(
    rt: &T,
    alloc: Global,
    plan: &Plan,
) -> Result<Reported, LoadFault>
    requires readers { (0 < plan.now.readers) × (plan.now.readers ≤ 1024) }
    requires keys { (0 < plan.now.keys) × (plan.now.keys ≤ 65536) }
    ensures report { IfOk result (λ reported. MayComeTo plan.now (Ok reported.report)) }
    ensures text { IfOk result (λ reported. string_bytes reported.text ≡ report_text reported.report) }
{
    with_text(alloc, run_load(rt, alloc, plan, &OpenGate))
}

/// The report of a load that came to this, and its text; a fault stays as it is.
fn with_text(alloc: Global, ran: Result<LoadReport, LoadFault>) -> Result<Reported, LoadFault>
    ensures report { IfOk result (λ reported. ran ≡ Ok reported.report) }
    ensures text { IfOk result (λ reported. string_bytes reported.text ≡ report_text reported.report) }
    ensures fault { IfErr ran (λ fault. result ≡ Err fault) }
    ensures memory { OnOk ran (IfErr result (λ fault. fault ≡ LoadFault.Memory)) }
{
    let report = ran?;
    let mut text = String::new(alloc);
    match set_text(&mut text, &ReportLines(&report)) {
        Ok(()) => Ok(Reported { report, text }),
        Err(_) => Err(LoadFault::Memory),
    }
}
