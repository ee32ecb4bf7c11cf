// The check of a text by a station file's automaton, and what is printed of it.
#![tactic(auto)]

pub mod outcome;
pub mod report;

pub use outcome::check_file;
pub use report::{Finding, Report};
