// Stepping: a station file's trace is given to a sheet, and what every call answers is printed.
#![tactic(auto)]

mod answers;
pub mod outcome;
mod report;
mod settings;
pub mod trace;

pub use outcome::steps_file;
pub use trace::step_through;
