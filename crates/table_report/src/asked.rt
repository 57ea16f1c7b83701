//! What is asked of a report with a table.

use direction_table::TableForm;
use station_report::Head;

/// What is asked of a report with a table.
#[derive(Clone, Copy, Debug, Drop)]
pub struct Asked<'a, 'n> {
    /// What stands in the head of the report that is not of the station.
    pub head: Head<'a, 'n>,
    /// The path of the table, as the report names it.
    pub table_path: &'a [u8],
    /// How the table is to be read.
    pub form: TableForm,
    /// Within how many units of 0.000001 gon the table agrees; where none is stated, what is usual
    /// for the steps to which its rows round.
    pub within: Option<u32>,
}
