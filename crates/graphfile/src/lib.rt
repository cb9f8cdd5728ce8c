// Graph files (01, "Two files, contents first": Graph): from bytes to a graph and back.
#![tactic(auto)]

mod counts;
mod file;
pub mod head;
mod layout;
pub mod marking;
pub mod reader;
mod refusal;
mod rows;
pub mod writer;

pub use layout::{is_wide, wide_for};
pub use reader::{Bare, Reading, read, read_bare};
pub use writer::{Written, write, write_unjudged};
