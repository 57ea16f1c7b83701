//! The only station of a field file, by its name: the station that is meant where none is named.
#![tactic(auto)]

mod only;

pub use only::only_station;
