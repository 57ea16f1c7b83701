//! The report of a station with a table of directions beside the adjusted ones.
//!
//! `beside_by` answers the report of a station with a section more: each stated direction with its
//! difference from the adjusted one, after the rotation that makes the largest difference smallest,
//! and that less the median of all; the limit; and whether the directions agree; and the rows of the
//! section. `table_answers` reads the files and prints it.
#![tactic(auto)]

mod asked;
mod beside;
pub mod laws;
mod section;

pub use asked::Asked;
pub use beside::{Beside, StatedDirections, TableReport, beside_by, beyond};
