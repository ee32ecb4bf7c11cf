// Joins over small automata, as tests.
#![tactic(auto)]

pub mod automatons;
#[cfg(test)]
mod tests;
