//! The notes of a report.

use report_phrases::Language;

/// A line of the head of a report: what it is of, and what is said of it.
#[derive(Clone, Copy, Debug, Drop)]
pub struct Note<'a> {
    /// What it is of, as `Project`.
    pub key: &'a str,
    /// What is said of it, as it was typed.
    pub text: &'a str,
}

/// What a report is told to note, and in which language it is written.
#[derive(Debug, Drop)]
pub struct Notes<'a> {
    /// The language of all its fixed phrases.
    pub language: Language,
    /// Its date, as it was typed, where one is stated.
    pub date: Option<&'a str>,
    /// Its lines, in the order in which they were stated.
    pub lines: Vec<Note<'a>>,
    /// Whether it ends with lines for a place, a date and a signature.
    pub signature: bool,
    /// Whether it is divided into pages, each of which says of what it is.
    pub pages: bool,
}
