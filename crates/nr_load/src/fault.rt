//! Why a load ends early.
ghost use Rattle.std.specs.Prelude.{◌≡◌};
ghost use Rattle.nr_load.specs.Faults.{earlier};

use thiserror::Error;

/// Why a load ends without a report. Of several the one that is named first is told.
#[derive(Clone, Copy, Debug, PartialEq, Eq, Error)]
pub enum LoadFault {
    #[error("no memory")]
    Memory,
    #[error("a thread could not be started")]
    Thread,
    #[error("a gate did not open")]
    Barred,
    #[error("a get gave wrong rows")]
    WrongRows,
}

/// Of two faults the one that is named first.
pub(crate) fn earlier(one: Option<LoadFault>, other: Option<LoadFault>) -> Option<LoadFault>
    ensures { result ≡ earlier one other }
{
    match (one, other) {
        (Some(LoadFault::Memory), _) | (_, Some(LoadFault::Memory)) => Some(LoadFault::Memory),
        (Some(LoadFault::Thread), _) | (_, Some(LoadFault::Thread)) => Some(LoadFault::Thread),
        (Some(LoadFault::Barred), _) | (_, Some(LoadFault::Barred)) => Some(LoadFault::Barred),
        (Some(LoadFault::WrongRows), _) | (_, Some(LoadFault::WrongRows)) => {
            Some(LoadFault::WrongRows)
        }
        (None, None) => None,
    }
}
