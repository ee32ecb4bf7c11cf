// Tests of the join of a station file, through the library call.
#![tactic(auto)]

#[cfg(test)]
mod tests;
