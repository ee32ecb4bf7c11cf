// The join of two contexts by a station file's automaton, and what is printed of it.
#![tactic(auto)]

pub mod contexts;
pub mod finding;
pub mod outcome;
pub mod report;

pub use contexts::Contexts;
pub use finding::Finding;
pub use outcome::{Desk, Desks, join_file};
pub use report::Report;
