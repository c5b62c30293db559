// The tables of a kernel, and the moves on them.
#![tactic(auto)]

pub mod laws;
pub mod moves;
pub mod queries;
pub mod running;
pub mod store;
