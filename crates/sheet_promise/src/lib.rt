//! The promise of an accepted sheet in the sheet's own names: sets by their numbers, targets by
//! their names, and the observations as its rows say them.
#![tactic(auto)]

pub mod laws;
mod promised;

pub use promised::{check_kept_promised, check_slices_promised};
