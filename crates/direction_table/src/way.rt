//! How a table is read: as two columns, or by a pair of its columns.

use crate::form::ColumnPair;
use crate::separator::Separator;

/// How a table is read.
#[derive(Clone, Copy, Drop)]
pub(crate) enum Way {
    /// As one of two columns.
    TwoColumns,
    /// By two of the columns that this separates.
    ByColumns(Separator, ColumnPair),
    /// Not: more columns fit, of which these two are the first, counted from 0.
    MoreFit(u16, u16),
}
