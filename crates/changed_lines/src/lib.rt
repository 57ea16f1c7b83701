//! A copy of a field file in which just the lines that are named are left out, or their points
//! renamed.
//!
//! A line whose target was named wrongly, that was recorded in error, or that a transfer spoiled,
//! keeps a whole file from being checked. [`changed_copy`] makes the copy without it, or with the
//! right name, and changes no other byte. Lines are counted as refusals count them, and may be such
//! that no reader takes.
#![tactic(auto)]

mod change;
mod copy;
mod fault;
mod first_line;
pub mod laws;
mod order;
mod renaming;
mod saying;
mod stated;

pub use change::{Change, Edit};
pub use copy::changed_copy;
pub use fault::ChangeFault;
pub use order::in_order;
pub use saying::{Unsaid, change_in, changes_in};
pub use stated::{EditKind, Unstated, changes_of};
