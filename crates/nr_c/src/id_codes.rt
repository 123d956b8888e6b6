//! The numbers that stand for answers to calls by id.
ghost use Rattle.std.specs.Prelude.{◌≡◌};
ghost use Rattle.nr_c.specs.IdCodes.{found_id_code, id_replace_code, id_update_code, looked_code, refused_code, request_code};
ghost use Rattle.nr_c.specs.IdReclaims.{id_replace_reclaiming_code, id_update_reclaiming_code};

use crate::codes::{
    NR_ASKED, NR_FULL, NR_HOLE, NR_NAMED, NR_NOT_ASKED, NR_NOTHING, NR_OTHER, NR_ROWS, NR_SEND,
    NR_WAITING, NR_WORN, of_reclaimed, of_replace, of_update,
};
use nr_idmap::{
    FoundId, IdFault, Looked, Reclaimed, Refused, ReplaceFault, Requested, UpdateFault,
};

/// The number of a find's answer.
pub fn of_found_id(found: FoundId) -> u32
    ensures { result ≡ found_id_code found }
{
    match found {
        FoundId::Rows => NR_ROWS,
        FoundId::Pending => NR_ASKED,
        FoundId::Moved => NR_OTHER,
        FoundId::Absent => NR_HOLE,
    }
}

/// The number of a request's answer. A claim is spent: the caller has its id.
pub fn of_request(answer: Requested) -> u32
    ensures { result ≡ request_code answer }
{
    match answer {
        Requested::Granted(claim) => {
            claim.into_id();
            NR_SEND
        }
        Requested::Named(_way) => NR_NAMED,
        Requested::Busy => NR_WAITING,
        Requested::Outrun => NR_WAITING,
        Requested::Worn => NR_WORN,
    }
}

/// The number of a look's answer.
pub fn of_looked(looked: Looked) -> u32
    ensures { result ≡ looked_code looked }
{
    match looked {
        Looked::Rows => NR_ROWS,
        Looked::Pending => NR_ASKED,
        Looked::Absent => NR_HOLE,
    }
}

/// The number of a refused admission.
pub fn of_refused(why: Refused) -> u32
    ensures { result ≡ refused_code why }
{
    match why {
        Refused::NoClaim => NR_NOT_ASKED,
        Refused::Named(_way) => NR_NAMED,
        Refused::Full => NR_FULL,
    }
}

/// The number of an update's answer.
pub fn of_id_update(answer: Result<(), IdFault<UpdateFault>>) -> u32
    ensures { result ≡ id_update_code answer }
{
    match answer {
        Ok(()) => of_update(Ok(())),
        Err(IdFault::Absent) => NR_NOTHING,
        Err(IdFault::Refused(fault)) => of_update(Err(fault)),
    }
}

/// The number of a replacement's answer.
pub fn of_id_replace(answer: Result<(), IdFault<ReplaceFault>>) -> u32
    ensures { result ≡ id_replace_code answer }
{
    match answer {
        Ok(()) => of_replace(Ok(())),
        Err(IdFault::Absent) => NR_NOTHING,
        Err(IdFault::Refused(fault)) => of_replace(Err(fault)),
    }
}

/// The number of a reclaiming update's answer.
pub fn of_id_update_reclaiming(answer: Result<Reclaimed, IdFault<UpdateFault>>) -> u32
    ensures { result ≡ id_update_reclaiming_code answer }
{
    match answer {
        Ok(given) => of_reclaimed(given),
        Err(IdFault::Absent) => NR_NOTHING,
        Err(IdFault::Refused(fault)) => of_update(Err(fault)),
    }
}

/// The number of a reclaiming replacement's answer.
pub fn of_id_replace_reclaiming(answer: Result<Reclaimed, IdFault<ReplaceFault>>) -> u32
    ensures { result ≡ id_replace_reclaiming_code answer }
{
    match answer {
        Ok(given) => of_reclaimed(given),
        Err(IdFault::Absent) => NR_NOTHING,
        Err(IdFault::Refused(fault)) => of_replace(Err(fault)),
    }
}
