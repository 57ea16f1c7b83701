//! Codes for a field file that was recorded without them, as a command: the copy, the notes of what
//! was recognized, the line of a refusal, and the exit status.
//!
//! | Call | Does |
//! |---|---|
//! | `mark_bytes` | finds where codes are put into a field file, or answers its first fault |
//! | `mark_source` | the same, and gives the reader back |
//! | `notes_text` | what is told of the stations of a marked file |
//! | `refusal_line` | the line of a refusal |
//! | `refusal_text` | the same of a marking, after the lines of each station |
//! | `told_rows` | the notes as rows: what is told of stations, as data |
//! | `run_mark` | the command: the copy on `out`, the notes or the refusal on `err`, the status |
//!
//! The rule by which codes are put in is `set_marks`.
#![tactic(auto)]

mod copy;
mod fault;
mod given;
pub mod laws;
mod leading;
mod mark;
mod marked_file;
mod notes;
mod refused;
mod rows;
mod runs;

pub use fault::PrintFault;
pub use mark::{mark_bytes, mark_source};
pub use marked_file::MarkedFile;
pub use notes::notes_text;
pub use refused::{refusal_line, refusal_text};
pub use rows::told_rows;
pub use runs::run_mark;
