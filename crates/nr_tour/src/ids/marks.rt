//! Which ids were found, and whose way another may have.
ghost use Rattle.std.specs.Prelude.{◌≡◌};

use nr_ids::{Clerk, Directory, Reader};
use std::io::Print;

fn mark_found(directory: &Directory, reader: &mut Reader)
    requires own { reader.old.directory ≡ directory.now }
    ensures own { reader.new.directory ≡ directory.now }
{
    directory.load_ahead(reader, &[7]);
    if let Some(way) = directory.look_up(reader, 7) {
        let is_marked = directory.is_marked(reader, way);
        directory.mark(reader, way, is_marked);
    }
}

fn take_mark(directory: &Directory, clerk: &mut Clerk) -> bool
    requires own { clerk.old.directory ≡ directory.now }
    ensures own { clerk.new.directory ≡ directory.now }
{
    match directory.way_of(clerk, 7) {
        Some(way) => directory.take_mark(clerk, way),
        None => false,
    }
}

/// A reader marks the way of an id that it found, the clerk takes the mark, and chooses a way.
pub fn show_marks<R: AllocGlobal + Print>(
    rt: &R,
    directory: &Directory,
    clerk: &mut Clerk,
    reader: &mut Reader,
) -> anyhow::Result<()>
    requires own { (clerk.old.directory ≡ directory.now) × (reader.old.directory ≡ directory.now) }
{
    mark_found(directory, reader);
    let marked = take_mark(directory, clerk);
    let way = directory.choose(clerk, 7);
    let id = directory.id_of(clerk, way);
    println!(rt; "marked: {marked}; chosen is way {way}, which has {id:?}")?;
    Ok(())
}
