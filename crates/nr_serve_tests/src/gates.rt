//! A gate that notes what it is asked.
use nr_serve::Gate;
use std::sync::atomic::{AtomicU64, Ordering};

/// Lets reader 1 pass from its get of that number on, and notes how often it was asked, and told of an
/// answer.
#[derive(Drop)]
pub(crate) struct Noting {
    first: u64,
    passes: AtomicU64,
    answers: AtomicU64,
}

impl Noting {
    pub(crate) fn from(first: u64) -> Noting {
        Noting {
            first,
            passes: AtomicU64::new(0),
            answers: AtomicU64::new(0),
        }
    }

    // How often it was asked, and told of an answer.
    pub(crate) fn noted(&self) -> (u64, u64) {
        (
            self.passes.load(Ordering::SeqCst),
            self.answers.load(Ordering::SeqCst),
        )
    }
}

impl Gate for Noting {
    fn pass(&self, reader: u32, get: u64) -> bool {
        self.passes.fetch_add(1, Ordering::SeqCst);
        reader == 1 && get >= self.first
    }

    fn answered(&self, reader: u32, get: u64) {
        if reader == 1 && get >= self.first {
            self.answers.fetch_add(1, Ordering::SeqCst);
        }
    }
}
