//! A cache reader's handle. Its type has no parameter, so that C may hold it, and all that is done with it is
//! done with the `Handle` that it is lent as.
ghost use Rattle.std.specs.Prelude.{◌≡◌, List, [], ◌∷◌};
ghost use Rattle.std.specs.Bool.{OnFalse, OnTrue};
ghost use base.Stored.{coded_list};
ghost use Rattle.nr_c.specs.contracts.id_reader_side.IdReaderSide.{the_row};
ghost use Rattle.nr_c.specs.declared.id_reader_side.IdReaderSide.{IdReaderSide};
ghost use Rattle.nr_c.specs.Hands.{EndsIdHand};
ghost use Rattle.nr_c.specs.Endings.{EndsShare};
ghost use Rattle.nr_c.specs.Handles.{handle_owns, side_coded};

use crate::id_reader_side::IdReaderSide;
use nr_idmap::IdReader;
use std::alloc::Global;
use std::marker::Model;

/// C starts one as zeros, which leads nowhere, as does one that was closed; it never copies one that
/// leads somewhere. It can't be dropped: its owner ends what it leads to.
#[repr(C)]
pub struct NrCacheReader {
    ptr: *mut u8,
    alloc: Global,
    pub ghost live: { List IdReaderSide } by { coded_list (side_coded the_row) },
}

impl Model for NrCacheReader {
    ghost also_owns = { λ s. handle_owns the_row s.alloc s.ptr s.live };
}

// C may hand it to another thread.
unsafe impl Send for NrCacheReader {}

impl NrCacheReader {
    /// Makes an empty handle lead to a side.
    pub fn lead_to(&mut self, b: Box<IdReaderSide, Global>)
        requires empty { self.old.live ≡ [] }
        ensures { self.new.live ≡ b.value ∷ [] }
    {
        self.handle().lead_to(b)
    }

    /// Whether it leads somewhere.
    pub fn is_live(&mut self) -> bool
        ensures same { self.new ≡ self.old }
        ensures live { OnTrue result ((side : IdReaderSide) × (self.new.live ≡ side ∷ [])) }
        ensures empty { OnFalse result (self.new.live ≡ []) }
    {
        self.handle().is_live()
    }

    /// Ends the reader: what it holds is released, and its share of the map ends. The handle leads nowhere
    /// then.
    pub fn close(&mut self, alloc: Global) -> IdReader
        requires { (side : IdReaderSide) × (self.old.live ≡ side ∷ []) }
        ensures ends { (side : IdReaderSide) → self.old.live ≡ side ∷ [] → EndsIdHand side.hand result }
        ensures share { (side : IdReaderSide) → self.old.live ≡ side ∷ [] → EndsShare side.map side.watch }
        ensures empty { self.new.live ≡ [] }
    {
        Box::into_inner(self.handle().take(alloc)).end()
    }
}
