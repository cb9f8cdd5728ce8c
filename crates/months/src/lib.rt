// Months put together (02, 12/12): a log's tally in lent bytes, two tallies in one, and the relations after step 8 that a tally gives.
#![tactic(auto)]

pub mod filling;
pub mod joining;
mod layout;
mod pairs;
pub mod reading;

pub use filling::fill;
pub use joining::join;
pub use layout::WIDTH;
pub use reading::{Known, relations};
