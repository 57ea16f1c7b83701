//! What no clause says: examples worked out by hand, row by row, in pieces of each length and by
//! each tally; readers and writers that fail, readers without an end, and refused memory.

mod answers;
mod ends;
mod faults;
mod files;
mod memory;
mod pieces;
mod readings;
mod tallies;
mod words;
mod worked_rows;
