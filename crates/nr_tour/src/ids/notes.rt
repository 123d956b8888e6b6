//! What one token learns of another.
ghost use Rattle.std.specs.Prelude.{◌≡◌};

use nr_ids::{Clerk, Directory, Reader, Requested};
use std::io::Print;

// The id that a claim was granted for.
fn claim(directory: &Directory, reader: &mut Reader) -> Option<u64>
    requires own { reader.old.directory ≡ directory.now }
    ensures own { reader.new.directory ≡ directory.now }
{
    match directory.request(reader, 7) {
        Requested::Granted(claim) => {
            let id = claim.id();
            claim.into_id();
            Some(id)
        }
        Requested::Named(_) | Requested::Busy | Requested::Outrun | Requested::Worn => None,
    }
}

/// The clerk hears what a reader has seen, and the reader what the clerk has.
pub fn show_notes<R: AllocGlobal + Print>(
    rt: &R,
    directory: &Directory,
    clerk: &mut Clerk,
    reader: &mut Reader,
) -> anyhow::Result<()>
    requires own { (clerk.old.directory ≡ directory.now) × (reader.old.directory ≡ directory.now) }
    ensures own { (clerk.new.directory ≡ directory.now) × (reader.new.directory ≡ directory.now) }
{
    let id = claim(directory, reader);
    let asked = directory.note(reader);
    directory.hear_clerk(clerk, asked);
    let admitted = directory.admit(clerk, 7);
    let told = directory.note_clerk(clerk);
    // One is for this reader, and one for another thread's.
    let (told, _other) = directory.split_note(reader, told);
    directory.hear(reader, told);
    let found = directory.look_up(reader, 7);
    println!(rt; "claimed for {id:?}, admitted to {admitted:?}, and found in {found:?}")?;
    Ok(())
}
