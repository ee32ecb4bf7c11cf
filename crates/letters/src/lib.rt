// Letters: small kinds of values, each with a number, and the kinds that have a printed form.
#![tactic(auto)]

pub mod kind;
pub mod seepage;
pub mod trend;
pub mod two;

pub use kind::{Letter, Printable};
pub use seepage::{Flow, Seepage};
pub use trend::Trend;
pub use two::Two;
