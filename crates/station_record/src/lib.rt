//! The check, the comparison and the report as calls that say which bytes they judged.
//!
//! After the line of an acceptance or an agreement, or the text of a report, stands one line a
//! file, as `sha256sum` prints it: the SHA-256 digest of the very bytes that were read of the file
//! and judged, and the file's name. So `sha256sum -c` says whether a file is still the one that was
//! judged. At a refusal no digest is printed, since the files may not have been read whole; but
//! after a report of a table that is apart they are.
#![tactic(auto)]

mod check;
mod compare;
mod lines;
mod named;
mod report;
mod report_with_table;
mod rows;
mod texts;

pub use check::run_check_recorded;
pub use compare::run_compare_recorded;
pub use named::{HeadedReader, NamedReader};
pub use report::run_report_recorded;
pub use report_with_table::run_table_report_recorded;
pub use rows::run_rows_recorded;
