//! A table of names that threads share.
ghost use Rattle.std.specs.Prelude.{◌≡◌, ◌≢◌, ◌≤◌, ◌<◌, ◌↔◌, ◌⊎◌, length, string_bytes, IfOk, IfErr, OnOk, OnErr};
ghost use Rattle.nr_names.specs.Naming.{IsName};
ghost use Rattle.nr_names.specs.declared.table.TheConstants.{LONGEST_NAME, MAX_KEYS};

use crate::faults::NameFault;
use crate::table::NameTable;
use std::sync::{Mutex, Wait};

/// A table of names that threads share. Each call is the table's, made under a lock, so names and
/// numbers are one to one each time that the lock is got.
#[derive(Drop)]
pub struct Names {
    table: Mutex<NameTable>,
}

impl Names {
    pub(crate) fn of(table: NameTable) -> Names {
        Names {
            table: Mutex::new(table),
        }
    }

    /// The number of a name, as the table gives or refuses it.
    ///
    /// Which names are known is settled under the lock, so no clause says whether this one was.
    pub fn intern(&self, rt: &impl Wait, name: &str) -> Result<u32, NameFault>
        ensures number { IfOk result (λ number. number < MAX_KEYS) }

        ensures empty { (result ≡ Err NameFault.Empty) ↔ (length name.now ≡ 0) }
        ensures too_long { (result ≡ Err NameFault.TooLong) ↔ (LONGEST_NAME < length name.now) }
        ensures never_no_name { result ≢ Err NameFault.NoName }
    {
        self.table.lock(rt).intern(name)
    }

    /// Sets the text to the name that has the number, or refuses, as the table does.
    pub fn name(&self, rt: &impl Wait, number: u32, text: &mut String) -> Result<(), NameFault>
        ensures text { OnOk result (IsName LONGEST_NAME (string_bytes text.new)) }
        ensures kept { OnErr result (string_bytes text.new ≡ string_bytes text.old) }

        ensures no_name { MAX_KEYS ≤ number → result ≡ Err NameFault.NoName }
        ensures refusal { IfErr result (λ fault. (fault ≡ NameFault.NoName) ⊎ (fault ≡ NameFault.Memory)) }
    {
        self.table.lock(rt).name(number, text)
    }
}
