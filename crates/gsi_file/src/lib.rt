//! The numbered lines of a field file, from any reader or in memory.
//!
//! A field file comes in pieces that are cut anywhere, and may break off or go on for ever.
//! [`Lines`] reads it through one buffer of 4,096 bytes. Each call finds the next line that is not
//! blank, tests that it is a block of GSI words, and lends the block until the next line is asked
//! for. The end and the first fault are answered again at each later call.
//!
//! Of a file that lies in memory [`MemoryLines`] gives the same lines and faults, copies nothing,
//! and tells where each line begins.
//!
//! What comes is said once, of the whole file: `file_answers` in specs/, which knows nothing of
//! buffers and reads. A reader of the code begins with `lines`, and goes on with `search`, `buffer`
//! and `line_end`; of lines in memory with `memory_lines`, `rest` and `part_end`.
#![tactic(auto)]

mod beside;
mod bounds;
mod buffer;
mod file_fault;
pub mod laws;
mod line;
mod line_end;
mod lines;
mod memory_lines;
mod out_of_memory;
mod part_end;
mod placed_line;
mod rest;
mod search;
mod window;

pub use beside::{LineEnd, end_beside};
pub use bounds::{LONGEST_FILE, LONGEST_LINE};
pub use file_fault::{FileFault, FileKind};
pub use line::Line;
pub use line_end::{CARRIAGE_RETURN, LINE_FEED, is_blank};
pub use lines::Lines;
pub use memory_lines::MemoryLines;
pub use out_of_memory::OutOfMemory;
pub use placed_line::PlacedLine;
