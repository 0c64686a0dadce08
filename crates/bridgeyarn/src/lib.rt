// The C boundary: the functions that the planner, the workshop's tools and the oracle link, as
// include/bridgeyarn.h declares them, and nothing else. Each takes any arguments and answers.

#![tactic(auto)]

pub mod cell;
pub mod edge;
pub mod extraction;
pub mod key;
pub mod mesh;
pub mod record;
