//! The sheet of an adjustment as CSV text: read exactly, with its first fault named, and written.
//!
//! A sheet has five columns, kind, number, name, value and turn, and its rows stand in this order:
//!
//! | Row | Columns | How many |
//! |---|---|---|
//! | sheet | `sheet,VERSION,STATION,D,` | one |
//! | target | `target,,NAME,A,` | 1 to 100 |
//! | set | `set,NUMBER,,O,` | 1 to 40 |
//! | obs | `obs,NUMBER,NAME,p,k` | 1 to 4,000 |
//!
//! A, O and p are in half units (0.005 mgon each), A and O times D. The version says how large D, A
//! and O may be:
//!
//! | VERSION | D | A and O |
//! |---|---|---|
//! | `1` | 1 to 10^9 | -10^18 to 10^18 |
//! | `2` | 1 to 10^12 | -10^21 to 10^21 |
//!
//! In both a set has a NUMBER from 1 to 9,999, p lies from 0 to 79,999,999, the full turns k from
//! -9 to 9, and STATION and NAME are 1 to 16 bytes from the blank to the tilde. A number has one
//! form: `0`, or an optional `-`, a digit 1 to 9 and any digits. So `+5`, `007`, `-0` and a blank
//! before or after the digits are no numbers.
//!
//! [`read_sheet`] answers the sheet that bytes stand for, or their first fault, a [`SheetFault`];
//! [`write_sheet`] writes the text of a sheet, which is read as the same sheet, as version 1 where
//! all its numbers are within it.
#![tactic(auto)]

mod columns;
mod draft;
mod entry;
mod fault;
pub mod laws;
mod number;
mod number_texts;
mod reading;
mod row_type;
mod text;
mod version;
mod writing;

pub use fault::{RowKind, SheetFault, WriteFault};
pub use number::{SHORT, of_digits};
pub use reading::{LONGEST_SHEET, read_sheet};
pub use writing::write_sheet;
