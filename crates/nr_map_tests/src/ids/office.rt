//! A directory with its clerk and a reader, and calls as tests make them.
ghost use Rattle.std.specs.Prelude.{◌≡◌, ◌<◌};

use nr_ids::{Clerk, Directory, Plan, Reader, Refused, Requested};
use std::process::Abort;

/// A key as one might draw it.
pub(crate) const KEY: u64 = 0x9E37_79B9_7F4A_7C15;

/// An answer to a request, whose claim was spent: its id.
#[derive(Clone, Copy, Debug, PartialEq, Eq)]
pub(crate) enum Told {
    Granted(u64),
    Named(u32),
    Busy,
    Outrun,
    Worn,
}

#[derive(Drop)]
pub(crate) struct Office {
    pub(crate) directory: Directory,
    pub(crate) clerk: Clerk,
    pub(crate) reader: Reader,
    pub ghost clerk_is: { clerk.directory ≡ directory },
    pub ghost reader_is: { reader.directory ≡ directory },
}

/// Requests an id, and spends the claim.
pub(crate) fn request(directory: &Directory, reader: &mut Reader, id: u64) -> Told
    requires own { reader.old.directory ≡ directory.now }
    requires id { 0 < id }
    ensures own { reader.new.directory ≡ directory.now }
{
    match directory.request(reader, id) {
        Requested::Granted(claim) => Told::Granted(claim.into_id()),
        Requested::Named(way) => Told::Named(way),
        Requested::Busy => Told::Busy,
        Requested::Outrun => Told::Outrun,
        Requested::Worn => Told::Worn,
    }
}

impl Office {
    /// Opens a directory of that many groups with one reader.
    pub(crate) fn open<R: AllocGlobal + Abort>(rt: &R, groups: u32) -> Office {
        let plan = Plan { groups, key: KEY };
        let (directory, mut clerk) = Directory::open(rt.alloc(), plan).expect(rt, "memory");
        let reader = directory.reader(&mut clerk);
        Office {
            directory,
            clerk,
            reader,
        }
    }

    pub(crate) fn requests(&mut self, id: u64) -> Told
        requires { 0 < id }
    {
        request(&self.directory, &mut self.reader, id)
    }

    pub(crate) fn finds(&mut self, id: u64) -> Option<u32>
        requires { 0 < id }
    {
        self.directory.look_up(&mut self.reader, id)
    }

    pub(crate) fn admits(&mut self, id: u64) -> Result<u32, Refused>
        requires { 0 < id }
    {
        self.directory.admit(&mut self.clerk, id)
    }

    pub(crate) fn clears(&mut self, id: u64) -> bool {
        self.directory.clear(&mut self.clerk, id)
    }

    /// The way that the clerk finds, which loses its name where that is wanted.
    pub(crate) fn clerk_finds(&mut self, id: u64, unnames: bool) -> Option<u32>
        requires { 0 < id }
    {
        let way = self.directory.way_of(&mut self.clerk, id)?;
        if unnames {
            self.directory.unname(&mut self.clerk, way);
        }
        Some(way)
    }

    /// The reader marks the id's way as found.
    pub(crate) fn marks(&mut self, id: u64)
        requires { 0 < id }
    {
        if let Some(way) = self.directory.look_up(&mut self.reader, id) {
            let is_marked = self.directory.is_marked(&mut self.reader, way);
            self.directory.mark(&mut self.reader, way, is_marked);
        }
    }

    /// Whether the id's way was marked.
    pub(crate) fn takes_mark(&mut self, id: u64) -> bool
        requires { 0 < id }
    {
        match self.directory.way_of(&mut self.clerk, id) {
            Some(way) => self.directory.take_mark(&mut self.clerk, way),
            None => false,
        }
    }

    /// The id whose way is chosen for another.
    pub(crate) fn chooses(&mut self, id: u64) -> Option<u64> {
        let way = self.directory.choose(&mut self.clerk, id);
        self.directory.id_of(&mut self.clerk, way)
    }

    /// The reader loads names ahead.
    pub(crate) fn loads_ahead(&mut self, ids: &[u64]) {
        self.directory.load_ahead(&mut self.reader, ids);
    }

    /// The reader hears of what the clerk has seen.
    pub(crate) fn tells_reader(&mut self) {
        let note = self.directory.note_clerk(&mut self.clerk);
        self.directory.hear(&mut self.reader, note);
    }

    /// And the clerk of what the reader has.
    pub(crate) fn tells_clerk(&mut self) {
        let note = self.directory.note(&mut self.reader);
        self.directory.hear_clerk(&mut self.clerk, note);
    }

    /// Requests an id and admits it, or clears the claim.
    pub(crate) fn takes_in(&mut self, id: u64) -> Option<u32>
        requires { 0 < id }
    {
        if self.requests(id) != Told::Granted(id) {
            return None;
        }
        match self.admits(id) {
            Ok(way) => Some(way),
            Err(_) => {
                self.clears(id);
                None
            }
        }
    }
}
