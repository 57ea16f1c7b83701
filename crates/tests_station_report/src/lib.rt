//! The tests of `station_report`, `table_report` and what `station_answers` and `table_answers` print
//! by them, by their public calls alone.
//!
//! They stand apart from these, since a check of a crate's tests proves the crate's own functions
//! once more; and together, since they print the same stations.
#![tactic(auto)]

#[cfg(test)]
mod tests;
