// The steps of mining on rows of sets: they ask the tally of a log, never the log.
#![tactic(auto)]

pub mod reduce;
pub mod relations;
mod rowwise;
