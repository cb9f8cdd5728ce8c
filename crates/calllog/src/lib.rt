// The log file: its refusals, and where its traces stand in the bytes.
#![tactic(auto)]

pub mod judge;
mod layout;
pub mod reader;
pub mod trace;

pub use judge::Judged;
pub use layout::MOST_TRACES;
pub use reader::LogReader;
pub use trace::{Asked, Found, Part};
