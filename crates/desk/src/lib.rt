// The call desk (02, 5/12): one graph, and a table of 32 places for the calls of vessels in port. The table is lent bytes.
#![tactic(auto)]

pub mod requests;
pub mod table;
pub mod way;

pub use requests::{Opened, close, close_on, judge_place, open, step, step_on};
pub use way::{finish, finish_on};
