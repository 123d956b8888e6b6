//! Names and their numbers.
ghost use Rattle.std.specs.Prelude.{◌≡◌, ◌≢◌, ◌≤◌, ◌<◌, ◌↔◌, ◌⊎◌, length, string_bytes, slice_get, None, IsTrue, IfOk, IfErr, OnOk, OnErr};
ghost use Rattle.nr_names.specs.Naming.{no_names, number_of_name, intern_reply, adds, next_naming, IsSoundNaming};

use crate::faults::NameFault;
use std::alloc::{AllocError, Global};
use std::collections::BTreeMap;
use std::marker::Model;

/// The most bytes that a name may have.
pub const LONGEST_NAME: usize = 255;

/// The most numbers that a table may give.
pub const MAX_KEYS: u32 = 65_536;

/// Names in the order in which they were interned, each one's place being its number.
#[derive(Drop)]
pub struct NameTable {
    alloc: Global,
    keys: u32,
    names: Vec<String>,
    numbers: BTreeMap<String, u32>,
}

impl Model for NameTable {
    ghost use Rattle.std.specs.Vec.{vec_capacity};
    ghost use Rattle.nr_names.specs.Naming.{Naming};
    ghost use Rattle.nr_names.specs.Kept.{naming_of, IsKept};
    ghost use Rattle.nr_names.specs.declared.table.TheConstants.{LONGEST_NAME, MAX_KEYS};

    ghost Value = { Naming };

    ghost view = { λ t. naming_of t.keys t.names.items };

    ghost invariant = { λ t. IsKept LONGEST_NAME MAX_KEYS (vec_capacity t.names) (naming_of t.keys t.names.items) t.numbers };
}

impl NameTable {
    /// Opens a table for as many names as there are keys, from 1 to 65,536, with none interned.
    ///
    /// Refused with `Memory` where there is none for the list of names.
    pub fn open(alloc: Global, keys: u32) -> Result<NameTable, NameFault>
        requires some { 0 < keys }
        requires within { keys ≤ MAX_KEYS }
        ensures empty { IfOk result (λ table. table ≡ no_names keys) }
        ensures refusal { IfErr result (λ fault. fault ≡ NameFault.Memory) }
    {
        let names = Vec::with_capacity(alloc, keys as usize).map_err(|_| NameFault::Memory)?;
        Ok(NameTable {
            alloc,
            keys,
            names,
            numbers: BTreeMap::new(alloc),
        })
    }

    /// The number of a name: the one that it has, or else the next one, from 0, which it keeps.
    ///
    /// A name of no bytes is refused with `Empty`, and one of over 255 with `TooLong`. A name that
    /// is known takes no memory. A new one is refused with `Full` where all numbers are taken, and
    /// then with `Memory` where it can't be kept. A refusal leaves the table as it was.
    pub fn intern(&mut self, name: &str) -> Result<u32, NameFault>
        ensures reply { result ≢ Err NameFault.Memory → result ≡ intern_reply LONGEST_NAME self.old name.now }
        ensures memory { result ≡ Err NameFault.Memory → IsTrue (adds LONGEST_NAME self.old name.now) }

        ensures next { OnOk result (self.new ≡ next_naming LONGEST_NAME self.old name.now) }
        ensures kept { OnErr result (self.new ≡ self.old) }
        ensures numbered { IfOk result (λ number. number_of_name self.new.names name.now ≡ Some number) }
        ensures sound { IsSoundNaming LONGEST_NAME MAX_KEYS self.new }
    {
        let _ = &self.keys; // for the proof: what holds of the fields is then known where a name is refused
        if name.is_empty() {
            return Err(NameFault::Empty);
        }
        if name.len() > LONGEST_NAME {
            return Err(NameFault::TooLong);
        }
        match self.number_of(name) {
            Some(number) => Ok(number),
            None => self.intern_new(name),
        }
    }

    // The number of a name, if it is known.
    fn number_of(&self, name: &str) -> Option<u32>
        ensures number { result ≡ number_of_name self.now.names name.now }
    {
        self.numbers.get(name).copied()
    }

    // As `intern`, of a name that isn't known.
    fn intern_new(&mut self, name: &str) -> Result<u32, NameFault>
        requires new { number_of_name self.old.names name.now ≡ None }
        requires some { 0 < length name.now }
        requires short { length name.now ≤ LONGEST_NAME }
        ensures reply { result ≢ Err NameFault.Memory → result ≡ intern_reply LONGEST_NAME self.old name.now }
        ensures memory { result ≡ Err NameFault.Memory → IsTrue (adds LONGEST_NAME self.old name.now) }

        ensures next { OnOk result (self.new ≡ next_naming LONGEST_NAME self.old name.now) }
        ensures kept { OnErr result (self.new ≡ self.old) }
        ensures numbered { IfOk result (λ number. number_of_name self.new.names name.now ≡ Some number) }
        ensures sound { IsSoundNaming LONGEST_NAME MAX_KEYS self.new }
    {
        let next = self.names.len() as u32;
        if next == self.keys {
            return Err(NameFault::Full);
        }
        self.add(name, next).map_err(|_| NameFault::Memory)?;
        Ok(next)
    }

    // Adds a new name, with the next number. The map's insertion is the last step that may fail, and
    // changes nothing where it does: the list has had its room since the table was opened.
    fn add(&mut self, name: &str, number: u32) -> Result<(), AllocError>
        requires adds { IsTrue (adds LONGEST_NAME self.old name.now) }
        requires next { number ≡ length self.old.names }
        ensures next { OnOk result (self.new ≡ next_naming LONGEST_NAME self.old name.now) }
        ensures kept { OnErr result (self.new ≡ self.old) }
        ensures sound { IsSoundNaming LONGEST_NAME MAX_KEYS self.new }
    {
        let key = String::from_str(self.alloc, name)?;
        let text = String::from_str(self.alloc, name)?;
        self.numbers.insert(key, number)?;
        self.names.push_reserved(text);
        Ok(())
    }

    /// Sets the text to the name that has the number.
    ///
    /// Refused with `NoName` where no name has it, and then with `Memory` where the text can't
    /// grow to hold the name. A refusal leaves the text as it was.
    pub fn name(&self, number: u32, text: &mut String) -> Result<(), NameFault>
        ensures text { OnOk result (slice_get self.now.names number ≡ Some (string_bytes text.new)) }
        ensures kept { OnErr result (string_bytes text.new ≡ string_bytes text.old) }

        ensures no_name { (result ≡ Err NameFault.NoName) ↔ (length self.now.names ≤ number) }
        ensures refusal { IfErr result (λ fault. (fault ≡ NameFault.NoName) ⊎ (fault ≡ NameFault.Memory)) }
        ensures sound { IsSoundNaming LONGEST_NAME MAX_KEYS self.now }
    {
        let Some(name) = self.names.get(number as usize) else {
            return Err(NameFault::NoName);
        };
        set_text(text, name.as_str()).map_err(|_| NameFault::Memory)
    }
}

// Sets the text. Its memory is had before it is changed.
fn set_text(text: &mut String, to: &str) -> Result<(), AllocError>
    ensures set { OnOk result (string_bytes text.new ≡ to.now) }
    ensures kept { OnErr result (string_bytes text.new ≡ string_bytes text.old) }
{
    text.reserve(to.len().saturating_sub(text.len()))?;
    text.clear();
    text.push_str(to)
}
