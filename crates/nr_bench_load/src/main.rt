//! A load with several upqueries under way, for `bench/load`. Its arguments are numbers: the seed, the
//! readers, the keys, the gets of each reader, and how many upqueries may be under way at once.
#![tactic(auto)]

ghost use Rattle.std.specs.Prelude.{◌<◌, ◌≤◌, IfSome};

use anyhow::{Result, bail};
use nr_load::{Plan, WindowedPlan, run_windowed_load};
use nr_serve::OpenGate;
use std::env;
use std::env::Args;

// The next argument, where it is such a number.
fn next_number(args: &mut Args, least: u32, most: u32) -> Option<u32>
    ensures { IfSome result (λ n. (least ≤ n) × (n ≤ most)) }
{
    let n = args.next()?.parse::<u32>().ok()?;
    if n < least || most < n {
        return None;
    }
    Some(n)
}

// The load that the arguments ask for, of which the first is the program's name.
fn plan_of(args: Args) -> Option<WindowedPlan>
    ensures readers { IfSome result (λ asked. (0 < asked.plan.readers) × (asked.plan.readers ≤ 1024)) }
    ensures keys { IfSome result (λ asked. (0 < asked.plan.keys) × (asked.plan.keys ≤ 65536)) }
{
    let mut args = args;
    args.next()?;
    let seed = u64::from(next_number(&mut args, 0, u32::MAX)?);
    let readers = next_number(&mut args, 1, 1024)?;
    let keys = next_number(&mut args, 1, 65_536)?;
    let gets = next_number(&mut args, 0, 1_000_000)?;
    let upqueries = next_number(&mut args, 1, 65_536)?;
    let plan = Plan {
        seed,
        readers,
        keys,
        gets,
    };
    Some(WindowedPlan { plan, upqueries })
}

fn main(rt: HostRuntime) -> Result<()> {
    let Some(plan) = plan_of(env::args(&rt)?) else {
        bail!("the arguments are SEED READERS KEYS GETS UPQUERIES");
    };
    let report = run_windowed_load(&rt, rt.alloc(), &plan, &OpenGate)?;
    let answered = report.answered;
    let asked = report.asked;
    println!(rt; "answered {answered}, pending {asked}")?;
    Ok(())
}
