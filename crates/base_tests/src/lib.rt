// Tests of the lower layers: letters, automata, texts, pages and files.
#![tactic(auto)]

#[cfg(test)]
mod automata_tests;
#[cfg(test)]
mod file_tests;
pub mod idle;
pub mod kinds;
#[cfg(test)]
mod letter_tests;
