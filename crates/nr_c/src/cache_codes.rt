//! The numbers that stand for a cache's answers, and what C is told beside them.
ghost use Rattle.std.specs.Prelude.{◌≡◌, if◌then◌else◌};
ghost use Rattle.nr_c.specs.Caches.{begun_code, begun_told, ended_code, flight_told, found_value_code, landed_code, swapped_code, taken_code, taken_told, value_told};

use crate::cache_flight::NrFlight;
use crate::codes::{
    NR_DONE, NR_EVICTED, NR_FULL, NR_HOLE, NR_NOTHING, NR_OTHER, NR_OWN, NR_ROWS, NR_SEND,
    NR_WAITING, of_reclaimed,
};
use nr_cache::{Begun, Flight, FoundValue, GivenValue, Landed, Swapped};

/// The number of a find's answer, and the value that was found.
pub fn of_value(value: Option<FoundValue>, told: &mut FoundValue) -> u32
    ensures code { result ≡ found_value_code value }
    ensures told { told.new ≡ value_told told.old value }
{
    match value {
        Some(found) => {
            *told = found;
            NR_ROWS
        }
        None => NR_HOLE,
    }
}

/// The number of what a miss comes to, and its flight.
pub fn of_begun(begun: Begun, told: &mut NrFlight) -> u32
    ensures code { result ≡ begun_code begun }
    ensures told { told.new ≡ begun_told told.old begun }
{
    match begun {
        Begun::Held => NR_ROWS,
        Begun::Wait(flight) => {
            *told = NrFlight::of(flight);
            NR_WAITING
        }
        Begun::Load(flight) => {
            *told = NrFlight::of(flight);
            NR_SEND
        }
        Begun::Alone => NR_FULL,
    }
}

/// The number of a flight's end without a value, and the flight.
pub fn of_ended(ended: Option<Flight>, told: &mut NrFlight) -> u32
    ensures code { result ≡ ended_code ended }
    ensures told { told.new ≡ flight_told told.old ended }
{
    match ended {
        Some(flight) => {
            *told = NrFlight::of(flight);
            NR_DONE
        }
        None => NR_NOTHING,
    }
}

/// The number of a value's going, and the value.
pub fn of_taken(value: Option<GivenValue>, told: &mut GivenValue) -> u32
    ensures code { result ≡ taken_code value }
    ensures told { told.new ≡ taken_told told.old value }
{
    match value {
        Some(taken) => {
            *told = taken;
            NR_EVICTED
        }
        None => NR_NOTHING,
    }
}

/// The number of what becomes of a value.
pub fn of_landed(landed: Landed) -> u32
    ensures { result ≡ landed_code landed }
{
    match landed {
        Landed::Held(given) => of_reclaimed(given),
        Landed::Own => NR_OWN,
    }
}

/// The number of what becomes of a value that is to take another's place.
pub fn of_swapped(swapped: Swapped) -> u32
    ensures { result ≡ swapped_code swapped }
{
    match swapped {
        Swapped::Held(given) => of_reclaimed(given),
        Swapped::Own => NR_OWN,
        Swapped::Other(_found) => NR_OTHER,
        Swapped::Absent => NR_HOLE,
    }
}

/// The one of two numbers that stands for a yes or a no.
pub fn either(is_so: bool, yes: u32, no: u32) -> u32
    ensures { result ≡ (if is_so then yes else no) }
{
    if is_so { yes } else { no }
}
