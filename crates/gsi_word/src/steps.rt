//! [`read_block`](crate::read_block) in steps, for a reader that has looked at the bytes of a line
//! before it hands them over: where its bytes were found to be printable, that is not tested again,
//! and a block is made anew of a line whose words were read.

pub use crate::line::{block_in, read_words};
pub use crate::plain::{
    PLAIN_LENGTH, WIDE_LENGTH, WORD_LENGTH, is_plain_reading, reading_angles, reading_block,
};
pub use crate::printable::{LANES, check_printable, printable_run};
pub use crate::shape::Shape;
