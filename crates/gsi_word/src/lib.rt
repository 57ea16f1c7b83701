//! The words of a GSI line: from bytes to blocks, words, names and angles.
//!
//! A field file of a total station is lines of words. A word is two digits that say what it is (11
//! a point number, 21 a horizontal direction, 41 a code), four bytes of information, a sign and a
//! content of 8 or 16 bytes. [`read_block`] reads one line without its end; [`Block`] and [`Word`]
//! give what stands in it. All of it is parts of the line: nothing is copied, and no call takes
//! memory. [`steps`] is for a reader of files.
#![tactic(auto)]

mod angle;
mod block;
mod decimal;
mod found;
mod index;
mod lanes;
pub mod laws;
mod line;
mod line_fault;
mod plain;
mod printable;
mod shape;
pub mod steps;
mod word;
mod words;
mod zeros;

pub use angle::{AngleFault, LAST_UNIT};
pub use block::Block;
pub use decimal::decimal_number;
pub use found::Found;
pub use index::{
    CODE_INFORMATION, CODE_NUMBER, HORIZONTAL_DIRECTION, POINT_NUMBER, VERTICAL_ANGLE,
};
pub use line::read_block;
pub use line_fault::LineFault;
pub use word::{GSI_8, GSI_16, Word};
pub use words::Words;
