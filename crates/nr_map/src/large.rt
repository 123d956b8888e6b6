//! Maps that are larger than those of scripts.
ghost use Rattle.std.specs.Prelude.{◌≡◌, ◌↔◌, IfOk, Err};
ghost use Rattle.nr_core.specs.Sizes.{IsBadLargeShape};
ghost use Rattle.nr_map.specs.Opened.{IsOpened, words_of_large};

use crate::reader::Reader;
use crate::reader_map::{ReaderMap, seated};
use crate::writer::Writer;
use nr_core::Shape;
use nr_model::OpenFault;
use std::alloc::Global;

impl ReaderMap {
    /// A map of that shape with its tokens, as `open_with`, for programs that need more: 1 to
    /// 4,294,967,295 keys, also more than slots, 1 to 4,194,303 slots, and 1 to 65,535 readers. Each
    /// reader has a word of its own, and finds by it. What is out of these limits is refused first,
    /// and then want of memory.
    pub fn open_large(
        alloc: Global,
        shape: &Shape,
    ) -> Result<(ReaderMap, Writer, Vec<Reader>), OpenFault>
        ensures bad_size { (result ≡ Err OpenFault.BadSize) ↔ IsBadLargeShape shape.now }
        ensures ok { IfOk result (λ (map, writer, readers). IsOpened shape.now (words_of_large shape.now) map writer readers.items) }
    {
        if shape.is_bad_large() {
            return Err(OpenFault::BadSize);
        }
        seated(alloc, *shape, shape.readers).map_err(|_| OpenFault::Memory)
    }
}
