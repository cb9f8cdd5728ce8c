// The tally of a log: what steps 1 to 7 ask of it, kept as seven tables of rows.
#![tactic(auto)]

mod form;
pub mod log;
mod look_back;
mod passes;

pub use form::{holds, in_form};
pub use log::Tally;
