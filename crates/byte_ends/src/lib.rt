//! Readers and writers that can fail: where the bytes of a field file come from, and where a text
//! goes.
//!
//! A [`Source`] is read and a [`Sink`] is written. In contracts, and only there, a source may tell
//! what bytes are left in it and whether it ends or fails after them; a sink tells whether it has
//! ever failed, and may tell the bytes that it holds. So a caller says of any reader or writer what
//! it answers, however the bytes are cut.
//!
//! [`read_whole`] takes all bytes of a source, up to a limit.
//!
//! [`Keeping`] keeps what another source gives.
//!
//! [`OfRead`] and [`OfWrite`] are std's readers and writers, which tell no bytes. [`Script`] and
//! [`Held`] tell theirs, for tests.
#![tactic(auto)]

mod failed;
mod held;
mod input;
mod keeping;
mod of_read;
mod of_write;
mod out_of_memory;
mod script;
mod sink;
mod source;

pub use failed::Failed;
pub use held::Held;
pub use input::{InputFault, read_whole};
pub use keeping::Keeping;
pub use of_read::OfRead;
pub use of_write::OfWrite;
pub use out_of_memory::OutOfMemory;
pub use script::Script;
pub use sink::Sink;
pub use source::Source;
