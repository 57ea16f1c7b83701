//! What is answered of one station of a field file and of a table of directions, whatever is asked
//! for.
//!
//! An answer of both is an `impl` of `TableAnswer`: their comparison, the differences of the table,
//! which may lack targets, target by target, the report of the station with the table, and all of
//! these in one text.
//! `table_answer_of` reads the field file and then the table, and answers, with the note of the
//! table; `write_table_answer` writes the answer; `run_table_answer` does the same as a command: the
//! text, the note, the line of a refusal, and the exit status.
#![tactic(auto)]

mod answer;
mod answering;
mod columns_row;
mod compared;
mod comparison;
mod differences;
pub mod laws;
mod noted;
mod other_unit;
mod part;
mod report;
mod telling;
mod verdict_row;
mod whole;

pub use answer::TableAnswer;
pub use answering::{run_table_answer, table_answer_of, write_table_answer};
pub use compared::Compared;
pub use comparison::{Comparison, compare_bytes, run_compare};
pub use differences::Differences;
pub use noted::Noted;
pub use report::verdict;
pub use telling::tell;
pub use verdict_row::{verdict_line, verdict_rows};
pub use whole::{LONGEST_REFUSAL_PARTS, RefusalParts, Whole, WholeTable, refusal_parts};
