//! What a get and its tries come to.
ghost use Rattle.std.specs.Prelude.{◌↔◌, IsTrue};
ghost use Rattle.nr_serve.specs.Gets.{IsPending};

/// How a get ended.
#[derive(Clone, Copy, Debug, PartialEq, Eq)]
pub enum Got {
    /// The key was filled, and the caller's set has its rows.
    Rows,
    /// Each try found the key missing.
    GaveUp,
    /// The key was filled, but the gate never let pass.
    Barred,
}

/// The request of a try that found a hole, and its answer.
#[derive(Clone, Copy, Debug, PartialEq, Eq)]
pub enum Requested {
    /// None was made, since a ticket is kept.
    NotMade,
    /// It was to be sent, under the key's ticket number.
    Sent(u64),
    /// An upquery is under way.
    Waiting,
    /// The key was filled meanwhile.
    Filled,
}

impl Requested {
    // Whether a fill is to come, if no ticket is kept.
    pub(crate) fn is_pending(&self) -> bool
        ensures { IsTrue result ↔ IsPending self.now }
    {
        matches!(self, Requested::Sent(_) | Requested::Waiting)
    }
}

/// What one try came to.
#[derive(Clone, Copy, Debug, PartialEq, Eq)]
pub enum Tried {
    /// It found a hole.
    Missed(Requested),
    /// It found rows, and the get ended.
    Ended(Got),
}
