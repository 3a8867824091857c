//! Tests of the program as a function: whole runs of `agglo_program::agglo` over a desk in memory and over real
//! files, the numbers that the command line may have, and the lines of refusals.
//!
//! It stands on `agglo_program`, and nothing stands on it: there is nothing here to call, the tests are all.
#![tactic(auto)]

#[cfg(test)]
mod tests;
