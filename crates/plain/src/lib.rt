// The engine to read in class (02, 1/12): a relation is a list of pairs, and every rule goes through it pair by pair. Markings, answers and
// results are those of the engine on sets, and so are the step rules that both are held to.
#![tactic(auto)]

pub mod enabled;
pub mod execute;
pub mod fill;
pub mod graph;
pub mod judge;
mod pairs;
pub mod replay;
pub mod step;

pub use fill::Filled;
pub use graph::Graph;
