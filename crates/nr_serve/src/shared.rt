//! What a client stands on.
use nr_map::ReaderMap;
use nr_trigger::Triggers;

/// The map, the queue and the gate that clients share, and the number of this one's reader.
pub(crate) struct Shared<'a, G> {
    pub(crate) map: &'a ReaderMap,
    pub(crate) triggers: &'a Triggers,
    pub(crate) gate: &'a G,
    pub(crate) reader: u32,
}

impl<G> Drop for Shared<'_, G> {
    fn drop(self) {
        let Shared {
            map: _,
            triggers: _,
            gate: _,
            reader: _,
        } = self;
    }
}
