// Joins: the shortest passing string between two contexts, and the row that brings a text to its next window.
#![tactic(auto)]

pub mod answers;
pub mod contexts;
pub mod laws;
pub mod marks;
mod overlaps;
mod rows;
pub mod search;
pub mod trails;
pub mod ways;

pub use answers::Joined;
pub use contexts::join;
pub use marks::Marks;
pub use search::Search;
pub use trails::Trail;
pub use ways::Way;
