// A list of forbidden patterns over two lent tables: it takes patterns one by one, and is finished into an automaton.
#![tactic(auto)]

mod answering;
mod builder;
mod links;
mod listed;
mod reading;
mod record;
mod taking;
mod tree;
mod word;

pub use builder::{Builder, LETTERS, PATTERNS, STATES};
pub use listed::Listed;
pub use record::Record;
