// How a half-done call can still finish (02, 8/12).
#![tactic(auto)]

pub mod search;
pub mod settle;
pub mod shut;

pub use search::{Finished, Way};
