// Tests of the sheet.
#![tactic(auto)]

#[cfg(test)]
mod sheet_tests;
