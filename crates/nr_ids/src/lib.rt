//! The directory of a map over ids: which way, eight of them a group, has which id.
#![tactic(auto)]

mod admissions;
mod directory;
mod hints;
pub mod laws;
mod marks;
mod plan;
mod requests;
mod rule;
mod tokens;
mod view;

pub use admissions::Refused;
pub use directory::Directory;
pub use plan::{MAX_GROUPS, Plan};
pub use requests::{Claim, Requested};
pub use tokens::{Clerk, Note, OpenFault, Reader};
