//! The ids whose values went of late, with their counts: of each group of ids the last four.
use crate::standing::Stake;
use std::alloc::{AllocError, Global};

/// How many ids that went a group tells.
const PAST: usize = 4;

/// An id that went, of which sixteen bits are kept. Its count is 0 where there is none.
#[derive(Clone, Copy, Debug)]
pub(crate) struct Leaver {
    tag: u16,
    pub count: u8,
    pub stake: Stake,
}

const NOBODY: Leaver = Leaver {
    tag: 0,
    count: 0,
    stake: Stake::Nothing,
};

/// The last that went of a group, and the place that the next one takes, which is the oldest's.
#[derive(Clone, Copy, Debug)]
struct Past {
    leavers: [Leaver; PAST],
    next: u8,
}

/// Side by side for each group, so that what a miss needs lies in one line of memory.
#[derive(Drop)]
pub(crate) struct Leavers {
    groups: Vec<Past>,
}

impl Leavers {
    pub fn open(alloc: Global, groups: u32) -> Result<Leavers, AllocError> {
        let nobody = Past {
            leavers: [NOBODY; PAST],
            next: 0,
        };
        Ok(Leavers {
            groups: vec![in alloc; nobody; groups as usize]?,
        })
    }

    /// Notes that an id went, as it stood. One of count 0 isn't told from those that never came.
    pub fn note(&mut self, id: u64, count: u8, stake: Stake) {
        let tag = tag_of(id);
        let group = self.group_of(id);
        let Some(past) = self.groups.get_mut(group) else {
            return;
        };
        let next = past.next as usize % PAST;
        past.leavers[next] = Leaver { tag, count, stake };
        past.next = ((next + 1) % PAST) as u8;
    }

    /// How an id stood when it went, which is told once.
    pub fn recall(&mut self, id: u64) -> Option<Leaver> {
        let tag = tag_of(id);
        let group = self.group_of(id);
        let past = self.groups.get_mut(group)?;
        for place in 0..PAST {
            let leaver = past.leavers[place];
            if leaver.tag == tag && leaver.count > 0 {
                past.leavers[place] = NOBODY;
                return Some(leaver);
            }
        }
        None
    }

    fn group_of(&self, id: u64) -> usize {
        let high = mixed(id) >> 32;
        (high.wrapping_mul(self.groups.len() as u64) >> 32) as usize
    }
}

fn tag_of(id: u64) -> u16 {
    ((mixed(id) >> 16) % (1 << 16)) as u16
}

// The id's bits, mixed, so that ids in a row come apart.
fn mixed(id: u64) -> u64 {
    let product = id.wrapping_mul(0xD6E8_FEB8_6659_FD93);
    (product ^ (product >> 32)).wrapping_mul(0xD6E8_FEB8_6659_FD93)
}
