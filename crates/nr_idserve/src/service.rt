//! What the threads of a server by id share.
ghost use Rattle.std.specs.Prelude.{◌≡◌};

use nr_idmap::IdMap;
use nr_serve::Lobby;
use nr_trigger::Triggers;
use std::marker::Model;

/// A map over ids, the queue of its claims, and the lobby in which its clients and its dataflow sleep. It
/// owns all three, and they are opened with it alone, so those of one map never wait in two lobbies.
#[derive(Drop)]
pub struct IdService {
    map: IdMap,
    claims: Triggers,
    lobby: Lobby,
}

impl Model for IdService {
    ghost use Rattle.nr_idserve.specs.IdServices.{IdServiceSeen};

    ghost Value = { IdServiceSeen };

    ghost view = { λ service. record { map = service.map; queue = service.claims; lobby = service.lobby } };
}

impl IdService {
    /// Of a map, a queue and a lobby, which from now on are reached through it.
    pub fn of(map: IdMap, claims: Triggers, lobby: Lobby) -> IdService
        ensures { result ≡ record { map = map; queue = claims; lobby = lobby } }
    {
        IdService { map, claims, lobby }
    }

    /// The map.
    pub fn map(&self) -> &IdMap
        ensures { result.now ≡ self.now.map }
    {
        &self.map
    }

    /// The queue of claims.
    pub fn claims(&self) -> &Triggers
        ensures { result.now ≡ self.now.queue }
    {
        &self.claims
    }

    /// The lobby.
    pub fn lobby(&self) -> &Lobby
        ensures { result.now ≡ self.now.lobby }
    {
        &self.lobby
    }

    /// The three again, once nobody serves here or is served.
    pub fn into_parts(self) -> (IdMap, Triggers, Lobby)
        ensures { let (map, queue, lobby) = result in (map ≡ self.map) × (queue ≡ self.queue) × (lobby ≡ self.lobby) }
    {
        let IdService { map, claims, lobby } = self;
        (map, claims, lobby)
    }
}
