//! What each handle is: the place of a token on the heap, or none. C never sees this type, since none
//! with a parameter crosses to it; each type of handle is lent as one of these.
ghost use Rattle.std.specs.Prelude.{◌≡◌, List, [], ◌∷◌};
ghost use Rattle.std.specs.Bool.{OnFalse, OnTrue};
ghost use base.Stored.{coded_list};
ghost use Rattle.nr_c.specs.Handles.{handle_owns};

use crate::parts::Parts;
use std::alloc::Global;
use std::marker::Model;
use std::mem::{self, ManuallyDrop};
use std::ptr;

/// A box of a token, or none. Its fields lie as those of each handle that C holds.
#[repr(C)]
pub struct Handle<T> {
    pub(crate) ptr: *mut T,
    alloc: Global,
    pub ghost live: { List T } by { coded_list T.code },
}

impl<T> Model for Handle<T> {
    ghost also_owns = { λ h. handle_owns T.row h.alloc h.ptr h.live };
}

impl<T> Handle<T> {
    /// Makes an empty handle lead to a token.
    pub fn lead_to(&mut self, b: Box<T, Global>)
    where
        T: Drop,
        requires empty { self.old.live ≡ [] }
        ensures { self.new.live ≡ b.value ∷ [] }
    {
        let empty = mem::replace(self, Handle::of_parts(Parts::of(b)));
        // It owns nothing, so nothing is lost with it.
        let _ = unsafe { ManuallyDrop::new_unchecked(empty) };
    }

    /// Whether it leads somewhere.
    pub fn is_live(&mut self) -> bool
        ensures same { self.new ≡ self.old }
        ensures live { OnTrue result ((token : T) × (self.new.live ≡ token ∷ [])) }
        ensures empty { OnFalse result (self.new.live ≡ []) }
    {
        !self.ptr.is_null()
    }

    /// Takes out what it leads to. The handle leads nowhere then.
    pub fn take(&mut self, alloc: Global) -> Box<T, Global>
        requires { (token : T) × (self.old.live ≡ token ∷ []) }
        ensures took { self.old.live ≡ result.value ∷ [] }
        ensures empty { self.new.live ≡ [] }
    {
        mem::replace(self, Handle::empty(alloc))
            .into_parts()
            .into_box()
    }

    fn empty(alloc: Global) -> Handle<T>
        ensures { result.live ≡ [] }
    {
        Handle {
            ptr: ptr::null_mut(),
            alloc,
        }
    }

    fn of_parts(parts: Parts<T, Global>) -> Handle<T>
        ensures { result.live ≡ parts.value ∷ [] }
    {
        let Parts { ptr, alloc } = parts;
        Handle { ptr, alloc }
    }

    fn into_parts(self) -> Parts<T, Global>
        requires { (token : T) × (self.live ≡ token ∷ []) }
        ensures { self.live ≡ result.value ∷ [] }
    {
        let Handle { ptr, alloc } = self;
        Parts { ptr, alloc }
    }
}
