//! Tickets on their way to the dataflow. The caller that got the ticket of a request posts it, one thread
//! takes what was posted, and each comes out once, first in first out.
//!
//! The tickets wait in a bounded queue without a lock. A poster and the taker each have a token of
//! their own, which knows what its calls posted or took. Between any two steps of any threads what
//! was taken, followed by what the queue holds, is what was posted, and each poster's part of it is
//! that poster's own list.
#![tactic(auto)]

mod attempts;
mod faults;
pub mod laws;
mod post;
mod rule;
mod tokens;
mod trigger;
mod triggers;
mod view;

pub use faults::{PostFault, TakeFault};
pub use post::{Post, Upquery};
pub use tokens::{Poster, Taker};
pub use trigger::Trigger;
pub use triggers::{MAX_CAPACITY, MAX_POSTERS, Triggers};
