//! How a token ends, of which contracts can tell from then on.
ghost use Rattle.nr_c.specs.Endings.{HasEnded};

/// Ends it.
pub fn leave<T>(token: T)
where
    T: Drop,
    ensures { HasEnded token }
{
    drop(token);
}
