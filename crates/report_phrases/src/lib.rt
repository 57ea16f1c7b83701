//! The fixed phrases of a report, in English, German and French.
#![tactic(auto)]

mod language;
mod phrase;

pub use language::Language;
pub use phrase::Phrase;
