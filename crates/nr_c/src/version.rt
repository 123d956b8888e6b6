//! The version of the library.
ghost use Rattle.std.specs.Prelude.{◌≡◌};
ghost use Rattle.nr_c.specs.Numbers.{version};

/// The version of the header: its three numbers, each of 8 bits.
pub const NR_VERSION: u32 = 768;

/// The version of the header that the library was made for. No step.
#[unsafe(no_mangle)]
pub extern "C" fn nr_version() -> u32
    ensures { result ≡ version }
{
    NR_VERSION
}
