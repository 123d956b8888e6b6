//! Laws over the definitions alone. Nothing runs here: each function's contract is the law.
ghost use Rattle.nr_cache.specs.Finds.{FindsNothingOlder};
ghost use Rattle.nr_cache.specs.Histories.{EachFlightEndsOnce, HeldIsFresh};
ghost use Rattle.nr_cache.specs.Moves.{GoesOn};
ghost use Rattle.nr_cache.specs.StoreRuns.{EachValueComesOutOnce, HoldsFresh, StoresInOrder};
ghost use Rattle.nr_cache.specs.Theorem.{Theorem};

use nr_model::RowRoom;

/// What a caller of a store may rely on: of an id one flight at most is under way, and each that began has
/// ended once or is under way; what is held is fresh; each value comes out once; after an invalidation nothing
/// older is found; and a count tells no more values than the capacity.
pub fn theorem<R: RowRoom>()
    ensures { Theorem R.shows }
{
    stores_in_order::<R>();
    holds_fresh::<R>();
    each_value_comes_out_once::<R>();
    finds_nothing_older();
}

/// Of each id one flight at most is under way, each that began has ended once or is under way, and one whose
/// value is to be held began after the last invalidation, put and change of its id.
pub fn each_flight_ends_once()
    ensures { EachFlightEndsOnce }
{}

/// A value is held only if no invalidation, put or change of its id came between the beginning of its flight
/// and its end.
pub fn held_is_fresh()
    ensures { HeldIsFresh }
{}

/// What a store's calls do to the map's writer continues whatever ran before.
pub fn goes_on<R: RowRoom>()
    ensures { GoesOn R.shows }
{}

/// In any run of a store's calls of each id one flight at most is under way, each that began has ended once
/// or is under way, and one whose value is to be held is fresh.
pub fn stores_in_order<R: RowRoom>()
    ensures { StoresInOrder R.shows }
{}

/// In any run of a store's calls a value that landed is held only if its id was neither invalidated nor put
/// nor changed since its flight began.
pub fn holds_fresh<R: RowRoom>()
    ensures { HoldsFresh R.shows }
{}

/// Each value that a store held comes out exactly once, with its id, and nothing else does, once its map is
/// taken apart.
pub fn each_value_comes_out_once<R: RowRoom>()
    ensures { EachValueComesOutOnce R.shows }
{
    nr_map::laws::each_set_comes_out_once::<R>();
}

/// Who hears the writer's note after an id was invalidated finds only a value of the id that was put since.
pub fn finds_nothing_older()
    ensures { FindsNothingOlder }
{
    nr_map::laws::reads_no_older();
}
