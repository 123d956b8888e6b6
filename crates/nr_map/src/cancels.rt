//! Requests that are taken back, and the numbers that tell them apart.
ghost use Rattle.std.specs.Prelude.{◌≡◌, ◌<◌, slice_index};
ghost use Rattle.nr_model.specs.Maps.{number_of, state_of};
ghost use Rattle.nr_board.specs.Callers.{map_seen};

use crate::reader_map::ReaderMap;
use crate::writer::Writer;
use nr_board::Cancel;
use std::marker::Brand;

impl ReaderMap {
    ghost use Rattle.nr_board.specs.WriterAnswers.{CancelsKey};

    /// Takes the request of a key back: an asked key is a hole with the next ticket number, so its
    /// next request is sent, and a late fill for the old one is stale. Nothing happens where the key
    /// is not asked, and where its ticket number is the last one, 4,194,303 (`Worn`): that request
    /// stays, and its own fill alone ends it. Takes 2 steps, and 1 where nothing happens.
    pub fn cancel(&self, writer: &mut Writer, key: u32) -> Cancel
        requires own { writer.old.table ≡ self.now }
        requires key { key < self.now.shape.keys }
        ensures { CancelsKey key writer.old writer.new result }
    {
        self.board
            .cancel_key::<Brand>(&mut writer.seat, &mut writer.lists, key)
    }

    /// The ticket number of a key, as the writer's list has it. A request of the key is sent with
    /// it, and each cancel raises it by one. Takes no step.
    pub fn number(&self, writer: &Writer, key: u32) -> u64
        requires own { writer.now.table ≡ self.now }
        requires key { key < self.now.shape.keys }
        ensures listed { result ≡ slice_index writer.now.numbers key }
        ensures number { result ≡ number_of (state_of (map_seen writer.now) key) }
    {
        writer.lists.number(key)
    }
}
