//! What the writer's handle leads to.
ghost use Rattle.std.specs.Prelude.{◌≡◌, ◌≢◌, ◌<◌, ◌≤◌, All, length};
ghost use Rattle.std.specs.Bool.{OnFalse, OnTrue};

use crate::reader_side::APART;
use crate::remains_side::RemainsSide;
use crate::watch::Watch;
use nr_map::{Reader, ReaderMap, Writer};
use std::alloc::Global;
use std::sync::Arc;

/// The writer with its share of the map, and the readers that no handle has yet.
/// It begins with the map, by whose place what `embed/null` makes tells two maps apart.
#[derive(Drop)]
#[repr(C)]
pub struct WriterSide {
    pub map: Arc<ReaderMap, Global>,
    /// Keeps what the writer's calls write apart from the map, which lies before it and which readers load.
    pub apart: [u64; APART],
    pub writer: Writer,
    pub spare: Vec<Reader, Global>,
    /// Where what remains will lie, once the map is taken apart.
    pub room: Box<RemainsSide, Global>,
    pub watch: Watch,
    ghost own: { writer.table ≡ map.value },
    ghost spares: { All (λ reader. reader.table ≡ map.value) spare.items },
}

impl WriterSide {
    /// Whether its map has that key.
    pub fn has_key(&self, key: u32) -> bool
        ensures has { OnTrue result (key < self.now.map.value.shape.keys) }
        ensures hasnt { OnFalse result (self.now.map.value.shape.keys ≤ key) }
    {
        key < self.map.keys()
    }

    /// Whether each of its map's readers is back.
    pub fn has_all_readers(&self) -> bool
        ensures all { OnTrue result (length self.now.spare.items ≡ self.now.map.value.shape.readers) }
        ensures not_all { OnFalse result (length self.now.spare.items ≢ self.now.map.value.shape.readers) }
    {
        self.spare.len() == self.map.readers() as usize
    }
}
