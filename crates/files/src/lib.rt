// Station files: their lines, the numbers in their columns, and the refusal line.
#![tactic(auto)]

pub mod fields;
pub mod input;
pub mod lines;
pub mod refusals;

pub use fields::read_four;
pub use input::{GAP, INPUT};
pub use lines::{Line, Lines, Name};
pub use refusals::Refusal;
