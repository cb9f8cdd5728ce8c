// The listing of a log, its summary and the text of marks, as bytes in a lent buffer, and which listing the program's arguments ask for.
#![tactic(auto)]

pub mod choice;
mod graph;
mod heading;
pub mod lent;
pub mod marked;
mod relations;
mod replays;
pub mod summary;
mod text;
pub mod writer;

pub use choice::{Choice, choose, write_refused};
pub use marked::write_marks;
pub use summary::write_summary;
pub use writer::{Listed, write_listing};
