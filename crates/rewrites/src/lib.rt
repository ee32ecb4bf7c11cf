// Rewriting: a station file's trace is given to a sheet, and what comes of it is printed.
#![tactic(auto)]

pub mod outcome;
mod report;
mod settings;
pub mod trace;

pub use outcome::rewrite_file;
pub use report::front;
pub use trace::feed;
