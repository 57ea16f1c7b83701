//! Reports divided into pages, for paper.
//!
//! A page has at most 60 lines. Each but the first of a report begins with a form feed, the head of
//! the report down to the line of its station, and an empty line: so who holds a page knows of
//! which file and station it is. A title of a section, and titles of columns, begin a page where
//! no row of a report may follow them on the page before.
#![tactic(auto)]

mod head;
pub mod laws;
mod lines;
mod pages;

pub use pages::paged;
