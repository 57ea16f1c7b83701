//! Code blocks for a field file that was recorded without them: where its stations and sets begin,
//! and the copy of the file that has them.
#![tactic(auto)]

pub mod book_laws;
mod bounds;
mod copy;
pub mod copy_laws;
mod details;
mod division;
pub mod division_laws;
mod ending;
mod equal_sets;
mod faces;
mod fault;
pub mod file_laws;
mod flaw;
mod judging;
mod known;
pub mod laws;
mod mark;
mod marked;
mod marking;
mod names;
mod outside;
mod placing;
mod reading;
mod readings;
mod recognized;
mod refused;
mod remarks;
mod set;
mod sight;
mod span;
mod starts;
pub mod stated_laws;
mod visits;
mod walk;
mod ways;
mod zeniths;

pub use bounds::MOST_READINGS;
pub use copy::marked_copy;
pub use division::{Divided, divide};
pub use equal_sets::{SetPair, SetPairs};
pub use fault::{MarkFault, MarkKind};
pub use flaw::Flaw;
pub use mark::{BlockMark, Code, CodeLine, LONGEST_CODE_LINE, Mark, code_line};
pub use marked::{Marked, mark_file};
pub use names::Names;
pub use outside::Ending;
pub use recognized::Recognized;
pub use refused::Refused;
pub use remarks::Remarks;
pub use sight::Sight;
pub use span::Span;
pub use zeniths::{LARGEST_SPREAD, ZenithRange, ZenithRanges};
