//! Why no run is made of a request.

use crate::unopened::Unopened;
use station_compare::Refusal;
use table_titles::TitlesFault;

/// Why no run is made of a request.
#[derive(Drop)]
pub(crate) enum Hindrance<'a> {
    /// A file that it names can't be opened.
    Unopened(Unopened<'a>),

    /// A new file is to have this path, and one is there already.
    IsThere(&'a str),

    /// It names no station, and its field file has a fault or not one station alone.
    Station(Refusal),

    /// It names columns of its table by titles, and the table has none of these.
    Columns(TitlesFault),
}
