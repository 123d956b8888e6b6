//! What all threads of a load share.
ghost use Rattle.std.specs.Prelude.{◌≡◌, ◌<◌, ◌≤◌, ◌^◌, slice_index};
ghost use Rattle.nr_map.specs.SlotBounds.{HasRoomForAll};
ghost use Rattle.nr_serve.specs.Counts.{closed_at};

use crate::load::Plan;
use nr_serve::{Guest, Service};
use std::alloc::Global;

/// A map with its queue and its lobby, and what the load is to do.
#[derive(Drop)]
pub(crate) struct Shared {
    pub(crate) alloc: Global,
    pub(crate) plan: Plan,
    /// How many upqueries may be under way at once.
    pub(crate) upqueries: u32,
    pub(crate) service: Service,
    ghost keys: { (0 < service.map.shape.keys) × (service.map.shape.keys ≤ 65536) },
    ghost slots: { HasRoomForAll service.map },
    ghost gets: { plan.gets < 2 ^ 32 },
}

impl Shared {
    /// Ends the load: no worker begins another get, and the dataflow ends once nothing is left to
    /// fill. The guest that it gives has closed the lobby.
    pub(crate) fn end(&self) -> Guest
        ensures lobby { result.lobby ≡ self.now.service.lobby }
        ensures closes { 0 < result.closes }
        ensures closed { 0 < slice_index result.seen closed_at }
    {
        let lobby = self.service.lobby();
        let mut guest = lobby.guest();
        lobby.close_as(&mut guest);
        guest
    }
}
