// A kernel of 32 tasks and 64 packets in its three phases.
#![tactic(auto)]

pub mod furnishing;
pub mod laws;
pub mod lists;
pub mod phases;
pub mod started;

// The calls, refusals and answers, for whoever uses a kernel.
pub use calls;
