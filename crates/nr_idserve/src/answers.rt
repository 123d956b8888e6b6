//! What a get by id and its tries come to.
ghost use Rattle.std.specs.Prelude.{◌↔◌, IsTrue};
ghost use Rattle.nr_idserve.specs.IdGets.{IsAwaited};

/// How a get by id ended.
#[derive(Clone, Copy, Debug, PartialEq, Eq)]
pub enum GotId {
    /// The caller's room has the id's rows.
    Rows,
    /// Each try found the id missing.
    GaveUp,
}

/// Why a try found no rows, and what it requested.
#[derive(Clone, Copy, Debug, PartialEq, Eq)]
pub enum Missed {
    /// The id's upquery is under way, and nothing was requested.
    Pending,
    /// The id was absent, and nothing was requested, since a claim is kept.
    NotRequested,
    /// The id was absent, and its claim was granted.
    Claimed,
    /// It had a way again.
    Named,
    /// A claim of its group was open.
    Busy,
    /// A claim of its group was granted to another client meanwhile.
    Outrun,
    /// Its group can't be claimed any more.
    Worn,
}

impl Missed {
    // Whether the dataflow is to raise the id's group, if no claim is kept.
    pub(crate) fn is_awaited(&self) -> bool
        ensures { IsTrue result ↔ IsAwaited self.now }
    {
        matches!(
            self,
            Missed::Pending | Missed::Claimed | Missed::Busy | Missed::Outrun
        )
    }
}

/// What one try came to.
#[derive(Clone, Copy, Debug, PartialEq, Eq)]
pub enum TriedId {
    /// It found no rows.
    Missed(Missed),
    /// It found rows.
    Rows,
}
