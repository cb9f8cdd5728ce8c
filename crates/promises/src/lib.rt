// The three demands, for a reader to open first. The theorems stand in proofs/Demands.antt; here are functions that call the
// project's own code and whose statements are the promises that join several of its functions.
#![tactic(auto)]

pub mod replayed;
pub mod returned;

pub use replayed::{replay_none, replay_own};
pub use returned::{file_back, graph_back};
