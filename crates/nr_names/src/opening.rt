//! How a table comes under a lock. No other file of the types has an allocator, so the table that
//! they get is the only one there.
ghost use Rattle.std.specs.Prelude.{◌≡◌, ◌≤◌, ◌<◌, IfErr};
ghost use Rattle.nr_names.specs.declared.table.TheConstants.{MAX_KEYS};

use crate::below::NamesBelow;
use crate::faults::NameFault;
use crate::keys::Keys;
use crate::lent::LentTable;
use crate::shared::Names;
use crate::table::NameTable;
use std::alloc::Global;

impl Names {
    /// Opens a table for as many names as there are keys, from 1 to 65,536, with none interned.
    ///
    /// Refused with `Memory` where there is none for the list of names.
    pub fn open(alloc: Global, keys: u32) -> Result<Names, NameFault>
        requires some { 0 < keys }
        requires within { keys ≤ MAX_KEYS }
        ensures refusal { IfErr result (λ fault. fault ≡ NameFault.Memory) }
    {
        Ok(Names::of(NameTable::open(alloc, keys)?))
    }
}

impl<K: Keys> NamesBelow<K> {
    /// Opens a table for as many names as there are keys, from 1 to 65,536, with none interned.
    ///
    /// Refused with `Memory` where there is none for the list of names.
    pub fn open(alloc: Global, keys: u32) -> Result<NamesBelow<K>, NameFault>
        requires some { 0 < keys }
        requires within { keys ≤ MAX_KEYS }
        requires typed { keys ≡ K.keys }
        ensures refusal { IfErr result (λ fault. fault ≡ NameFault.Memory) }
    {
        let table = NameTable::open(alloc, keys)?;
        Ok(NamesBelow::of(LentTable::of(table)))
    }
}
