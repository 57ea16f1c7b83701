//! A target of a station beside a table that may lack it.
ghost use Rattle.std.specs.Prelude.{◌≡◌, IfOk, map};
ghost use Rattle.station_differences.specs.Lines as spec;
ghost use Rattle.station_differences.specs.declared.line.TargetLine.TheVariants as line;

use crate::compared::TargetDifference;
use adjust_kernel::Name;
use std::alloc::{AllocError, Global};

/// A target of a station beside a table.
#[derive(Clone, Copy, Debug, PartialEq, Eq, Drop)]
pub enum TargetLine {
    /// The table states a direction of it.
    Compared(TargetDifference),
    /// No row of the table states one.
    Lacking(LackingTarget),
}

/// A target that a table lacks, with its least-squares direction.
#[derive(Clone, Copy, Debug, PartialEq, Eq, Drop)]
pub struct LackingTarget {
    /// The name of the target.
    pub target: Name,
    /// The least-squares direction, counted from that of the first target of the station and
    /// rounded to 0.000001 gon: in units of 0.000000001 gon, a multiple of 1,000 and below a full
    /// circle.
    pub least: u64,
}

impl TargetLine {
    /// The name of the target.
    pub(crate) fn target(&self) -> Name
        ensures { result ≡ spec.target_on self.now }
    {
        match self {
            TargetLine::Compared(row) => row.target,
            TargetLine::Lacking(lacking) => lacking.target,
        }
    }

    /// What is stated of the target and its difference, where the table states a direction of it.
    fn row(&self) -> Option<TargetDifference>
        ensures { result ≡ spec.row_on self.now }
    {
        match self {
            TargetLine::Compared(row) => Some(*row),
            TargetLine::Lacking(_) => None,
        }
    }

    /// The least-squares direction, in units of 0.000000001 gon.
    pub(crate) fn least(&self) -> u64
        ensures { result ≡ spec.least_on self.now }
    {
        match self {
            TargetLine::Compared(row) => row.least,
            TargetLine::Lacking(lacking) => lacking.least,
        }
    }
}

/// The lines of the targets that are stated, in their order.
///
/// The only error is that memory was refused.
pub(crate) fn compared_of(
    alloc: Global,
    lines: &[TargetLine],
) -> Result<Vec<TargetDifference>, AllocError>
    ensures { IfOk result (λ rows. rows.items ≡ spec.compared_of lines.now) }
{
    lines.iter().filter_map(|line| line.row()).collect(alloc)
}

/// The lines of a table that lacks no target.
///
/// The only error is that memory was refused.
pub fn lines_of(alloc: Global, rows: &[TargetDifference]) -> Result<Vec<TargetLine>, AllocError>
    ensures { IfOk result (λ lines. lines.items ≡ map line.Compared rows.now) }
{
    rows.iter()
        .map(|row| TargetLine::Compared(*row))
        .collect(alloc)
}
