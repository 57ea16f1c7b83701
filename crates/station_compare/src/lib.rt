//! Any program's directions of a station, beside the least-squares ones of its field file: what an
//! agreement says, why there is none, and the line of each.
//!
//! A table of directions agrees with a station, where one rotation brings the stated directions so
//! near to the least-squares ones as a limit says: least over all directions, orientations and full
//! turns. `table_answers` reads the files and compares them. `refuse` writes the line of a refusal
//! and its hint, whatever is asked of the station: which stations the file has, which target a table
//! lacks, which residual is above the limit.
#![tactic(auto)]

mod agreement;
mod fault;
mod hint;
mod how_far;
pub mod laws;
mod named_in_station;
mod named_stations;
mod refusal;
mod refused;
mod runs;

pub use agreement::{Agreement, agreement_line, targets_word};
pub use fault::CompareFault;
pub use hint::Hint;
pub use how_far::HowFar;
pub use named_in_station::station_hint;
pub use named_stations::stations_hint;
pub use refusal::{LONGEST_REFUSAL, Refusal, RefusalText, hinted, refusal_text};
pub use refused::refusal_line;
pub use runs::refuse;
