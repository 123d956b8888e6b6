//! A tour for users: a chapter in each file, of the map, of the queue and the server, of ids, and of a cache's
//! store. It makes their calls, and prints what they answered.
#![tactic(auto)]

mod cache;
mod ids;
mod map;
mod server;

fn main(rt: HostRuntime) -> anyhow::Result<()> {
    map::show_map(&rt)?;
    server::show(&rt)?;
    ids::show(&rt)?;
    cache::show(&rt)
}
