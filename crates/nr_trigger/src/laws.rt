//! Laws over the definitions alone. Nothing runs here: each function's contract is the law.
ghost use Rattle.nr_trigger.specs.Once.{ComesOutOnce};

/// At every moment: of each poster's list a beginning was taken and the queue holds the rest, each
/// ticket once and in its poster's order, and nothing was taken or is held that no poster posted.
pub fn comes_out_once()
    ensures { ComesOutOnce }
{}
