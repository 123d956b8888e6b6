//! A flight as C has it.
ghost use Rattle.std.specs.Prelude.{◌≡◌};
ghost use Rattle.nr_c.specs.Caches.{flight_of};

use nr_cache::Flight;

/// One load of one id: which of all it is, from 1 on, and the number that its caller began it with.
#[repr(C)]
#[derive(Clone, Copy)]
pub struct NrFlight {
    pub number: u64,
    pub mark: u64,
}

impl NrFlight {
    pub fn of(flight: Flight) -> NrFlight
        ensures { result ≡ flight_of flight }
    {
        NrFlight {
            number: flight.number,
            mark: flight.mark,
        }
    }
}
