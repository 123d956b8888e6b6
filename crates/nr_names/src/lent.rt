//! What a lock lends: a table with the number of keys that the lock's type names. Here it is a value
//! like any other, so that clauses can name it.
ghost use Rattle.std.specs.Prelude.{◌≡◌, ◌≢◌, ◌≤◌, ◌<◌, ◌↔◌, ◌⊎◌, length, string_bytes, slice_get, IsTrue, IfOk, IfErr, OnOk, OnErr};
ghost use Rattle.nr_names.specs.Naming.{number_of_name, intern_reply, adds, next_naming, no_names, IsName};
ghost use Rattle.nr_names.specs.declared.table.TheConstants.{LONGEST_NAME, MAX_KEYS};

use crate::faults::NameFault;
use crate::keys::Keys;
use crate::table::NameTable;
use std::marker::{Model, PhantomData};

/// A table of as many keys as its type says.
#[derive(Drop)]
pub(crate) struct LentTable<K: Keys> {
    table: NameTable,
    of: PhantomData<K>,
    ghost sized: { table.keys ≡ K.keys },
}

impl<K: Keys> Model for LentTable<K> {
    ghost use Rattle.nr_names.specs.Naming.{Naming};

    ghost Value = { Naming };

    ghost view = { λ lent. lent.table };
}

impl<K: Keys> LentTable<K> {
    pub(crate) fn of(table: NameTable) -> LentTable<K>
        requires { table.keys ≡ K.keys }
        ensures { result ≡ table }
    {
        LentTable {
            table,
            of: PhantomData,
        }
    }

    /// The number of a name, as `NameTable::intern` gives or refuses it.
    pub(crate) fn intern(&mut self, name: &str) -> Result<u32, NameFault>
        ensures reply { result ≢ Err NameFault.Memory → result ≡ intern_reply LONGEST_NAME self.old name.now }
        ensures memory { result ≡ Err NameFault.Memory → IsTrue (adds LONGEST_NAME self.old name.now) }

        ensures next { OnOk result (self.new ≡ next_naming LONGEST_NAME self.old name.now) }
        ensures kept { OnErr result (self.new ≡ self.old) }
        ensures numbered { IfOk result (λ number. number_of_name self.new.names name.now ≡ Some number) }

        ensures number { IfOk result (λ number. number < K.keys) }
        ensures empty { (result ≡ Err NameFault.Empty) ↔ (length name.now ≡ 0) }
        ensures too_long { (result ≡ Err NameFault.TooLong) ↔ (LONGEST_NAME < length name.now) }
        ensures never_no_name { result ≢ Err NameFault.NoName }
        ensures within { K.keys ≤ MAX_KEYS }
    {
        self.table.intern(name)
    }

    /// Sets the text to the name that has the number, as `NameTable::name` does.
    pub(crate) fn name(&self, number: u32, text: &mut String) -> Result<(), NameFault>
        ensures text { OnOk result (slice_get self.now.names number ≡ Some (string_bytes text.new)) }
        ensures kept { OnErr result (string_bytes text.new ≡ string_bytes text.old) }

        ensures no_name { (result ≡ Err NameFault.NoName) ↔ (length self.now.names ≤ number) }
        ensures refusal { IfErr result (λ fault. (fault ≡ NameFault.NoName) ⊎ (fault ≡ NameFault.Memory)) }
        ensures is_name { OnOk result (IsName LONGEST_NAME (string_bytes text.new)) }
        ensures past { K.keys ≤ number → result ≡ Err NameFault.NoName }
    {
        self.table.name(number, text)
    }
}
