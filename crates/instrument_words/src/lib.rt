//! What a field file recorded of instrument and time: its words 12, 13, 17, 18 and 19, as they
//! stand, as lines of a report.
//!
//! A [`Rereading`] is a source over a source. It gives what that gives, and keeps it, so that what
//! is recorded in it can be told below the line that names the file.
#![tactic(auto)]

mod below;
mod contents;
mod instrument;
pub mod laws;
mod lines;
mod rereading;

pub use below::{LINES_ABOVE, with_instrument};
pub use contents::Contents;
pub use instrument::{
    DATE, INSTRUMENT_TYPE, Instrument, SERIAL_NUMBER, TIME_FORMAT_1, TIME_FORMAT_2, instrument_in,
};
pub use lines::push_instrument;
pub use rereading::Rereading;
