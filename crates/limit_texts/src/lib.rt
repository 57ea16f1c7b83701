//! Limits as people state them: in mgon, as `0.3mgon`, or as a number of the units in which they
//! are counted.
//!
//! A surveyor thinks of 0.3 mgon. The limits of the program are whole numbers of three units, as
//! its verdicts count: so a limit in mgon is taken exactly where it is a whole number of its unit.
#![tactic(auto)]

pub mod laws;
mod limit;

pub use limit::{LimitUnit, limit_stated};
