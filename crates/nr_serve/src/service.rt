//! What the threads of a server share.
ghost use Rattle.std.specs.Prelude.{◌≡◌};

use crate::lobby::Lobby;
use nr_map::ReaderMap;
use nr_trigger::Triggers;
use std::marker::Model;

/// A map, the queue of its tickets, and the lobby in which its clients and its dataflow sleep. It owns
/// all three, and they are opened with it alone, so those of one map never wait in two lobbies.
#[derive(Drop)]
pub struct Service {
    map: ReaderMap,
    triggers: Triggers,
    lobby: Lobby,
}

impl Model for Service {
    ghost use Rattle.nr_serve.specs.Services.{ServiceSeen};

    ghost Value = { ServiceSeen };

    ghost view = { λ service. record { map = service.map; queue = service.triggers; lobby = service.lobby } };
}

impl Service {
    /// Of a map, a queue and a lobby, which from now on are reached through it.
    pub fn of(map: ReaderMap, triggers: Triggers, lobby: Lobby) -> Service
        ensures { result ≡ record { map = map; queue = triggers; lobby = lobby } }
    {
        Service {
            map,
            triggers,
            lobby,
        }
    }

    /// The map.
    pub fn map(&self) -> &ReaderMap
        ensures { result.now ≡ self.now.map }
    {
        &self.map
    }

    /// The queue, for a thread that posts or takes in a way of its own.
    pub fn triggers(&self) -> &Triggers
        ensures { result.now ≡ self.now.queue }
    {
        &self.triggers
    }

    /// The lobby.
    pub fn lobby(&self) -> &Lobby
        ensures { result.now ≡ self.now.lobby }
    {
        &self.lobby
    }

    /// The three again, once nobody serves here or is served.
    pub fn into_parts(self) -> (ReaderMap, Triggers, Lobby)
        ensures { let (map, queue, lobby) = result in (map ≡ self.map) × (queue ≡ self.queue) × (lobby ≡ self.lobby) }
    {
        let Service {
            map,
            triggers,
            lobby,
        } = self;
        (map, triggers, lobby)
    }
}
