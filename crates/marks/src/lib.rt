// Marks in exact numbers (02, 9/12): how a graph's verdicts, or a student's guesses, agree with labels; and all replays of a log at once.
#![tactic(auto)]

pub mod counts;
pub mod labels;
pub mod marks;
pub mod replays;

pub use counts::{Counts, Measure};
pub use marks::{Marked, mark, mark_guesses};
pub use replays::{Replays, write_replays};
