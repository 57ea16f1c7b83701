//! The tests of `wide_number`, by its public calls alone.
//!
//! They stand apart from it, since a check of a crate's tests proves the crate's own functions once
//! more.
#![tactic(auto)]

#[cfg(test)]
mod tests;
