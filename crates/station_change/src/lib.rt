//! Changed lines of a field file, as a command: the copy, what is told of each change, the line of
//! a refusal, and the exit status.
//!
//! | Call | Does |
//! |---|---|
//! | `notes_text` | what is told of the changes of a copy |
//! | `refusal_line` | the line of a refusal |
//! | `run_change` | the command: the copy on `out`, the notes or the refusal on `err`, the status |
//!
//! What a copy with changed lines is, is said by `changed_lines`.
#![tactic(auto)]

mod changed;
mod fault;
mod notes;
mod refused;
mod runs;

pub use fault::PrintFault;
pub use notes::notes_text;
pub use refused::refusal_line;
pub use runs::run_change;
