//! The sizes that an opening refuses.
ghost use Rattle.std.specs.Prelude.{◌↔◌, IsTrue};
ghost use Rattle.nr_model.specs.Sizes.{IsBadSize};

/// Whether an opening refuses a map of that many keys, slots or readers: none at all, or more than
/// the limit.
pub fn is_bad_size(limit: u32, size: u32) -> bool
    ensures { IsTrue result ↔ IsBadSize limit size }
{
    size == 0 || size > limit
}
