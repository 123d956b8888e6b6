//! A directory of two groups.
ghost use Rattle.std.specs.Prelude.{◌≡◌};

use crate::ids::admitting::show_misses;
use crate::ids::marks::show_marks;
use crate::ids::notes::show_notes;
use nr_ids::{Clerk, Directory, Plan};
use std::io::Print;

/// Ids get ways and lose them.
pub fn show_directory<R: AllocGlobal + Print>(rt: &R) -> anyhow::Result<()> {
    // The key of a program that serves strangers is drawn at random.
    let plan = Plan { groups: 2, key: 5 };
    let (directory, mut clerk) = Directory::open(rt.alloc(), plan)?;
    show_ways(rt, &directory, &mut clerk)
}

fn show_ways<R: AllocGlobal + Print>(
    rt: &R,
    directory: &Directory,
    clerk: &mut Clerk,
) -> anyhow::Result<()>
    requires { clerk.old.directory ≡ directory.now }
{
    let plan = directory.plan();
    let mut reader = directory.reader(clerk);
    println!(rt; "{} groups, too many: {}", plan.groups, plan.is_bad())?;
    show_misses(rt, directory, clerk, &mut reader)?;
    show_notes(rt, directory, clerk, &mut reader)?;
    show_marks(rt, directory, clerk, &mut reader)
}
