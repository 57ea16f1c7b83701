//! The calls for a page in a browser, and for C: bytes in, bytes out, and no files.
//!
//! | `station_page_..` | Does |
//! |---|---|
//! | `check` | checks a sheet against a field file: the line of the verdict |
//! | `list` | hands out the list of a field file's stations |
//! | `list_rows` | hands out the same as rows, and how many readings went unchecked |
//! | `means` | hands out the sheet of means of a station |
//! | `words` | hands out the words of a field file |
//! | `directions` | hands out the table of a station's least-squares directions |
//! | `residuals` | hands out the residuals of a station, observation by observation |
//! | `report` | hands out the report of a station's sets |
//! | `comma_directions` | hands out the directions, with semicolons and decimal commas |
//! | `comma_rows` | hands out the rows of the report so |
//! | `station` | hands out all of a station, of one reading and one adjustment |
//! | `compare` | compares a table of directions: the line of the answer |
//! | `differences` | hands out the differences of a table, target by target |
//! | `comma_differences` | hands out the differences with semicolons and decimal commas |
//! | `table` | hands out all of a table, of one reading of each file and one adjustment |
//! | `mark` | hands out a copy with codes put in, and what was recognized |
//! | `mark_rows` | the same copy, and what was recognized as rows |
//! | `change` | hands out a copy with lines left out, or their points renamed |
//! | `digest` | hands out the line of a file's SHA-256 digest |
//! | `instrument` | hands out what a field file recorded of instrument and time |
//! | `explain` | hands out what the fault means that a text names |
//! | `explanation` | hands out the same, part by part |
//! | `records` | hands out the records of a text, whose fields a byte separates |
//! | `columns` | hands out by which columns a table with two titles is to be read |
//! | `place` | hands out where the line of a refusal stands, as a row |
//!
//! Each is given whole files as slices, and numbers in the place of options. It hands out its text
//! at the front of a slice, and how long that is. Its answer is the status of the program's
//! command, 0 or 1; where it could answer nothing it is one of its own: 2 for a number or a name
//! out of its range, 3 for a slice with too little room.
//!
//! What a page does is these calls and what makes a module of them, which no contract speaks of.
#![tactic(auto)]

mod change;
mod check;
mod columns;
mod digest;
mod explain;
mod form;
mod hand_out;
mod instrument;
mod language;
pub mod laws;
mod list;
mod mark;
mod marking;
mod place;
mod records;
mod statement;
mod station;
mod table;
mod text;
mod words;
