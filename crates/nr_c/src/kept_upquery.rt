//! An upquery whose numbers C has.
ghost use Rattle.std.specs.Prelude.{◌≡◌, ◌↔◌, IsTrue};
ghost use Rattle.nr_c.specs.Ledgers.{HasNumbers, owed_of};

use nr_idmap::Upquery;
use std::marker::Model;
use std::mem::ManuallyDrop;

/// An upquery in C: for which id and way, by which ticket number it is answered, which admission of
/// its map opened it, 1 for the first, and which map that is. An eviction keeps the ticket number, so only
/// the count tells a second answer from the first one to the way's next upquery.
#[repr(C)]
#[derive(Clone, Copy)]
pub struct NrUpquery {
    pub id: u64,
    pub number: u64,
    pub way: u32,
    pub count: u64,
    pub map: u64,
}

/// An upquery that the library keeps while it is open. It may be let go: its writer goes with it, so
/// nobody fills or withdraws it any more.
#[derive(Drop)]
pub struct KeptUpquery {
    count: u64,
    kept: ManuallyDrop<Upquery>,
}

impl Model for KeptUpquery {
    ghost use Rattle.core.specs.Mem.{manually_drop_value};
    ghost use Rattle.nr_c.specs.Ledgers.{Counted};

    ghost Value = { Counted };

    ghost view = { λ one. record { count = one.count; upquery = manually_drop_value one.kept } };
}

impl KeptUpquery {
    /// Keeps what that admission opened.
    pub fn of(count: u64, upquery: Upquery) -> KeptUpquery
        ensures { result ≡ record { count = count; upquery = upquery } }
    {
        // It owns no memory, so nothing is lost with it.
        let kept = unsafe { ManuallyDrop::new_unchecked(upquery) };
        KeptUpquery { count, kept }
    }

    /// The upquery, for the call that ends it.
    pub fn into_upquery(self) -> Upquery
        ensures { result ≡ self.upquery }
    {
        ManuallyDrop::into_inner(self.kept)
    }

    /// Its numbers, with that of its map.
    pub fn numbers(&self, map: u64) -> NrUpquery
        ensures numbers { HasNumbers result self.now }
        ensures map { result.map ≡ map }
    {
        NrUpquery::of(map, self.count, &self.kept)
    }

    /// Whether it has these numbers.
    pub fn has(&self, wanted: NrUpquery) -> bool
        ensures { IsTrue result ↔ HasNumbers wanted self.now }
    {
        let kept: &Upquery = &self.kept;
        self.count == wanted.count
            && kept.id() == wanted.id
            && kept.way() == wanted.way
            && kept.number() == wanted.number
    }
}

impl NrUpquery {
    /// Its numbers.
    pub fn of(map: u64, count: u64, upquery: &Upquery) -> NrUpquery
        ensures numbers { owed_of result ≡ upquery.now.owed }
        ensures count { result.count ≡ count }
        ensures map { result.map ≡ map }
    {
        NrUpquery {
            id: upquery.id(),
            number: upquery.number(),
            way: upquery.way(),
            count,
            map,
        }
    }
}
