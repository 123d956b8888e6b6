//! A miss, from the request to the name and back.
ghost use Rattle.std.specs.Prelude.{◌≡◌, ◌<◌};

use nr_ids::{Clerk, Directory, Reader, Refused, Requested};
use std::io;
use std::io::Print;

// What a thread comes to that wants an id's rows.
#[derive(Clone, Copy, Debug)]
enum Want {
    // They are in this way, or will be.
    Way(u32),
    // The caller sends the id to the clerk, by any queue.
    Claim(u64),
    // Another's claim is open, perhaps for this id: the caller tries again later.
    Later,
}

fn ask_for(directory: &Directory, reader: &mut Reader, id: u64) -> Want
    requires own { reader.old.directory ≡ directory.now }
    requires id { 0 < id }
    ensures own { reader.new.directory ≡ directory.now }
{
    if let Some(way) = directory.look_up(reader, id) {
        return Want::Way(way);
    }
    match directory.request(reader, id) {
        // The claim is this caller's alone, and can't be dropped.
        Requested::Granted(claim) => Want::Claim(claim.into_id()),
        Requested::Named(way) => Want::Way(way),
        Requested::Busy | Requested::Outrun | Requested::Worn => Want::Later,
    }
}

// The clerk's answer to a claim: the id's way, in which its rows will be.
fn answer(directory: &Directory, clerk: &mut Clerk, id: u64) -> Option<u32>
    requires own { clerk.old.directory ≡ directory.now }
    requires id { 0 < id }
    ensures own { clerk.new.directory ≡ directory.now }
{
    match directory.admit(clerk, id) {
        Ok(way) => Some(way),
        Err(Refused::Named(way)) => Some(way),
        Err(Refused::NoClaim) => None,
        // Here a way would lose its name: directory.unname(clerk, way). Without one the claim is closed.
        Err(Refused::Full) => {
            directory.clear(clerk, id);
            None
        }
    }
}

fn show_admitted<R: Print>(
    rt: &R,
    directory: &Directory,
    clerk: &mut Clerk,
    reader: &mut Reader,
) -> io::Result<()>
    requires own { (clerk.old.directory ≡ directory.now) × (reader.old.directory ≡ directory.now) }
    ensures own { (clerk.new.directory ≡ directory.now) × (reader.new.directory ≡ directory.now) }
{
    let first = ask_for(directory, reader, 42);
    let second = ask_for(directory, reader, 42);
    let way = answer(directory, clerk, 42);
    let found = directory.look_up(reader, 42);
    println!(rt; "id 42: {first:?}, then {second:?}; admitted to {way:?}, and found in {found:?}")
}

fn show_groups<R: Print>(rt: &R, directory: &Directory) -> io::Result<()> {
    let plan = directory.plan();
    let (group, second) = (plan.group_of(42), plan.second_of(42));
    let first = plan.first_way(42);
    println!(rt; "its groups are {group} and {second}; the first's ways begin at {first}")
}

fn unname(directory: &Directory, clerk: &mut Clerk)
    requires own { clerk.old.directory ≡ directory.now }
    ensures own { clerk.new.directory ≡ directory.now }
{
    if let Some(way) = directory.way_of(clerk, 42) {
        directory.unname(clerk, way);
    }
}

/// A miss of id 42, which is admitted and loses its way again.
pub fn show_misses<R: AllocGlobal + Print>(
    rt: &R,
    directory: &Directory,
    clerk: &mut Clerk,
    reader: &mut Reader,
) -> anyhow::Result<()>
    requires own { (clerk.old.directory ≡ directory.now) × (reader.old.directory ≡ directory.now) }
    ensures own { (clerk.new.directory ≡ directory.now) × (reader.new.directory ≡ directory.now) }
{
    show_admitted(rt, directory, clerk, reader)?;
    show_groups(rt, directory)?;
    unname(directory, clerk);
    let gone = directory.look_up(reader, 42);
    println!(rt; "without its name: {gone:?}")?;
    Ok(())
}
