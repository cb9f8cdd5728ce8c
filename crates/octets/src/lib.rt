// What the files of this house share: what a file opens with, editions, numbers and sets as bytes (01, "Sizes").
#![tactic(auto)]

pub mod edition;
pub mod number;
pub mod opening;
pub mod room;
pub mod set;

pub use number::{byte_at, number_at, put_number};
pub use opening::opens_with;
pub use set::{put_set, set_at};
