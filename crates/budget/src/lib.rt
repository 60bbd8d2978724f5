//! What a call may run out of, and how many steps it takes.
//!
//! Every call that takes memory is passed the allocator and answers [`NoMemory`] where it isn't
//! found. A call whose cost is promised counts its steps with [`Steps`], which costs nothing when
//! it runs.
#![tactic(auto)]

mod steps;

pub use std::alloc::AllocError as NoMemory;
pub use steps::Steps;
