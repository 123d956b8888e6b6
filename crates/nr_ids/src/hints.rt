//! The hints of a group's eight ways, as the bytes of one word.
ghost use Rattle.std.specs.Prelude.{◌≡◌, ◌<◌, ◌↔◌, ◌==◌, ◌^◌, ℕ, cond, set};
ghost use Rattle.std.specs.Int.{bit_at, to_le_bytes, w64};
ghost use Rattle.nr_ids.specs.Events.{hint_at};
ghost use Rattle.nr_ids.specs.Looking.{IsFirst};

use std::simd::u8x8;

/// The places at which a group's hints have this one, a bit each: eight bytes are compared at once.
#[inline(always)]
pub(crate) fn fitting(hints: u64, hint: u8) -> u64
    ensures few { result < 2 ^ 8 }
    ensures fits { (place : ℕ) → place < 8 → (bit_at result place ≡ 1) ↔ (hint_at hints place ≡ hint) }
{
    let bytes = u8x8::from_array(hints.to_le_bytes());
    bytes.simd_eq(u8x8::splat(hint)).to_bitmask()
}

/// The first of some places.
#[inline(always)]
pub(crate) fn first(places: u64) -> u32
    requires some { 0 < places }
    requires few { places < 2 ^ 8 }
    ensures inside { result < 8 }
    ensures first { IsFirst places result }
{
    places.trailing_zeros()
}

/// The last of some places.
pub(crate) fn last(places: u64) -> u32
    requires some { 0 < places }
    requires few { places < 2 ^ 8 }
    ensures inside { result < 8 }
    ensures among { bit_at places result ≡ 1 }
{
    63 - places.leading_zeros()
}

/// All but the first of some places.
#[inline(always)]
pub(crate) fn others(places: u64) -> u64
    requires some { 0 < places }
    ensures fewer { result < places }
    ensures others { (first place : ℕ) → IsFirst places first → bit_at result place ≡ cond (place == first) 0 (bit_at places place) }
{
    places & (places - 1)
}

/// These hints, but for the one at that place.
pub(crate) fn with_hint(hints: u64, place: u32, hint: u8) -> u64
    requires { place < 8 }
    ensures { to_le_bytes w64 result ≡ set (to_le_bytes w64 hints) place hint }
{
    let mut bytes = hints.to_le_bytes();
    bytes[place as usize] = hint;
    u64::from_le_bytes(bytes)
}
