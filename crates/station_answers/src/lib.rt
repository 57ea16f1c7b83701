//! What is answered of one station of a field file: a text of its own, whatever is asked for.
//!
//! A text of a station is an `impl` of `StationAnswer`: the table of its least-squares directions,
//! its residuals, its report, the report's rows, and all of these in one, of one adjustment.
//! `answer_of` reads a field file and answers the text of a station; `write_answer` writes it;
//! `run_answer` does the same as a command: the text, the line of a refusal, and the exit status.
//! `push_part` adds a part to a text that has several.
#![tactic(auto)]

mod accuracy;
mod answer;
mod answering;
mod directions;
mod faces;
pub mod laws;
mod parts;
mod report;
mod residuals;
mod rows;
mod whole;

pub use answer::StationAnswer;
pub use answering::{answer_of, run_answer, write_answer};
pub use directions::Directions;
pub use parts::push_part;
pub use report::Report;
pub use residuals::Residuals;
pub use rows::ReportRows;
pub use whole::Whole;
