//! The languages of reports.

/// The language in which a report is written.
#[derive(Clone, Copy, Debug, Drop)]
pub enum Language {
    /// English, where no other is asked for.
    English,

    /// German.
    German,

    /// French.
    French,
}
