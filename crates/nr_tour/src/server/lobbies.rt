//! A lobby without clients, for a thread that waits in a way of its own.
use crate::map::Page;
use nr_model::OpenFault;
use nr_serve::Lobby;
use std::alloc::Global;
use std::sync::Wait;

// A thread that waits counts first, and looks then: what is raised after its look has passed the count,
// so no wake-up is missed. Here nobody sleeps, since the lobby is raised before.
fn raise<R: Wait>(rt: &R, lobby: &Lobby, page: &mut Page) -> u64 {
    let before = lobby.count(rt);
    lobby.raise(rt);
    let after = lobby.wait_past(rt, before);
    page.line("its count is ", &before);
    page.more(", and once it was raised ", &after);
    after
}

// Who waits for one key is woken by what happens to the keys of its group, and by no other.
fn raise_for_key<R: Wait>(rt: &R, alloc: Global, page: &mut Page) -> Result<(), OpenFault> {
    let lobby = Lobby::open(alloc)?;
    let mut guest = lobby.guest();
    let before = lobby.count_for(&mut guest, 3);
    lobby.raise_for(rt, &mut guest, 3);
    let of_key = lobby.wait_past_for(rt, &mut guest, 3, before);
    page.line("raised for key 3: ", &of_key);
    page.more(" there, for key 4 ", &lobby.count_for(&mut guest, 4));
    Ok(())
}

// Nobody sleeps in a closed lobby.
fn close<R: Wait>(rt: &R, lobby: &Lobby, count: u64, page: &mut Page) {
    lobby.close(rt);
    let last = lobby.wait_past(rt, count);
    page.line("closed: ", &lobby.is_closed(rt));
    page.more(", at ", &last);
}

/// A lobby is raised, another for one key, and the first is closed.
pub fn raised_once<R: Wait>(rt: &R, alloc: Global) -> Result<Page, OpenFault> {
    let lobby = Lobby::open(alloc)?;
    let mut page = Page::titled(alloc, "A lobby");
    let count = raise(rt, &lobby, &mut page);
    raise_for_key(rt, alloc, &mut page)?;
    close(rt, &lobby, count, &mut page);
    Ok(page)
}
