//! What the tests of several crates share. No library and no program stands on it.
//!
//! | Item | Is |
//! |---|---|
//! | `Recovers` | a reader that fails or ends once, and goes on after |
//! | `Resumes` | a writer that fails once, and goes on after |
//! | `Broken`, `Stuck` | a reader and a writer that fail at once, and a writer that takes no byte |
//! | `S1`, `TWO_PARTS`, `TIE` | field files of one worked station each |
//! | `station_of` | a small station of the observations that are stated |
//! | `hoard`, `hoard_of_all_but` | all memory, in few blocks, so that what is asked is refused |
#![tactic(auto)]

mod broken;
mod fields;
mod memory;
mod reader;
mod stations;
mod writer;

pub use broken::{Broken, Stuck};
pub use fields::{S1, TIE, TWO_PARTS};
pub use memory::{BLOCKS, hoard, hoard_of_all_but};
pub use reader::Recovers;
pub use stations::{Observed, station_of};
pub use writer::Resumes;
