//! The opening of a map over ids.
ghost use Rattle.std.specs.Prelude.{◌≡◌, ◌↔◌, IfOk, Err};
ghost use Rattle.nr_idmap.specs.IdOpenings.{IsBadIdShape, OpensIds, pairs_from};

use crate::id_map::{IdMap, IdShape};
use crate::tokens::{IdReader, IdWriter};
use nr_ids::{Clerk, Directory, Plan};
use nr_map::{Reader, ReaderMap};
use nr_model::{OpenFault, SortedRows};
use std::alloc::{AllocError, Global};

impl IdMap {
    /// A map over ids with its writer and its readers, without an id. Refused where a size is out of its
    /// limits, and then where there is no memory: a group takes 208 bytes, and a slot of a map whose ids
    /// may have n rows 16n + 51.
    pub fn open(
        alloc: Global,
        shape: &IdShape,
    ) -> Result<(IdMap, IdWriter, Vec<IdReader>), OpenFault>
        ensures bad_size { (result ≡ Err OpenFault.BadSize) ↔ IsBadIdShape shape.now }
        ensures ok { IfOk result (λ (map, writer, readers). OpensIds shape.now map writer readers.items) }
    {
        if shape.is_bad() {
            return Err(OpenFault::BadSize);
        }
        let Ok((map, writer, mut readers)) = ReaderMap::open_large(alloc, &shape.of_map()) else {
            return Err(OpenFault::Memory);
        };
        let plan = Plan {
            groups: shape.groups,
            key: shape.key,
        };
        let Ok((directory, mut clerk)) = Directory::open(alloc, plan) else {
            return Err(OpenFault::Memory);
        };
        let Some(asker) = readers.pop() else {
            unreachable!()
        };
        let Ok(paired) = pair_readers(alloc, &directory, &mut clerk, readers) else {
            return Err(OpenFault::Memory);
        };
        let writer = IdWriter {
            writer,
            asker,
            clerk,
            sorted: SortedRows::new(),
        };
        Ok((IdMap { map, directory }, writer, paired))
    }
}

// Each of the map's readers with the next one of the directory.
fn pair_readers(
    alloc: Global,
    directory: &Directory,
    clerk: &mut Clerk,
    readers: Vec<Reader>,
) -> Result<Vec<IdReader>, AllocError>
    requires own { clerk.old.directory ≡ directory.now }
    ensures own { clerk.new.directory ≡ directory.now }
    ensures clerk { (clerk.new.number ≡ clerk.old.number) × (clerk.new.seen ≡ clerk.old.seen) }
    ensures readers { IfOk result (λ paired. paired.items ≡ pairs_from directory.now clerk.old.made readers.items) }
{
    let mut paired = Vec::with_capacity(alloc, readers.len())?;
    for reader in readers {
        paired.push_reserved(IdReader {
            reader,
            ids: directory.reader(clerk),
        });
    }
    Ok(paired)
}
