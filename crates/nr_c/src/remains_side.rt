//! What the handle of what remains of a map leads to.
ghost use Rattle.std.specs.Prelude.{◌≡◌, None};

use nr_map::{ReaderMap, Rest};
use std::alloc::Global;
use std::sync::Arc;

/// What is left of a map, with its share of the map.
#[derive(Drop)]
pub struct LeftMap {
    pub map: Arc<ReaderMap, Global>,
    pub rest: Rest,
    ghost own: { rest.writer.table ≡ map.value },
}

/// The room for that, which a map's opening takes.
#[derive(Drop)]
pub struct RemainsSide {
    pub left: Option<LeftMap>,
}

impl RemainsSide {
    pub fn empty() -> RemainsSide
        ensures { result.left ≡ None }
    {
        RemainsSide { left: None }
    }
}
