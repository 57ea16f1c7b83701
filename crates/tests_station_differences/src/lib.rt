//! The tests of `station_differences` and of what `table_answers` prints by it, by their public
//! calls alone.
//!
//! They stand apart from these, since a check of a crate's tests proves the crate's own functions
//! once more.
#![tactic(auto)]

#[cfg(test)]
mod tests;
