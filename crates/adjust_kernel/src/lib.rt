//! The kernel of the checker: a station as it was measured, a sheet as somebody adjusted it, and
//! the verdict on both.
//!
//! A [`Station`] has the observed directions of one station, a [`Sheet`] the directions and
//! orientations that an adjustment gave them, all over one denominator. [`check`] says whether the
//! sheet is the least-squares adjustment of the station, in an [`Accepted`], or the first fault
//! that stands, a [`KernelFault`]. A [`ResidualLimit`] bounds each residual.
//!
//! The sums of the residuals are kept in a [`Tally`]: [`check`] takes a [`Running`], and
//! [`check_with`] any other, as a [`Scan`], which adds up anew for each sum.
//!
//! All quantities are whole numbers: directions as observed are in half units (0.005 mgon each),
//! and adjusted directions, orientations and residuals in half units times the denominator. The
//! definitions that contracts cite have laws, and the bounds stand there in digits: [`laws`].
#![tactic(auto)]

mod accepted;
mod bounds;
mod connection;
mod kernel_fault;
pub mod laws;
mod marks;
mod matching;
mod name;
mod obs;
mod out_of_memory;
mod residual;
mod residual_limit;
mod row;
mod running;
mod scan;
mod sheet;
mod station;
mod sums;
mod tally;
mod units;
mod verdict;

pub use accepted::Accepted;
pub use bounds::{
    LARGEST_ANGLE, LARGEST_DENOMINATOR, LARGEST_RESIDUAL, LARGEST_RESIDUAL_LIMIT,
    LARGEST_SET_NUMBER, LARGEST_TURN, LONGEST_FAULT_NAME, LONGEST_NAME, MOST_ROWS, MOST_SETS,
    MOST_TARGETS, TURN,
};
pub use connection::is_connected;
pub use kernel_fault::KernelFault;
pub use marks::{MOST_NODES, are_marked};
pub use matching::check_matches;
pub use name::Name;
pub use obs::Obs;
pub use out_of_memory::OutOfMemory;
pub use residual::residual_of;
pub use residual_limit::{ResidualLimit, first_above_limit};
pub use row::{Direction, Orientation, Row};
pub use running::Running;
pub use scan::Scan;
pub use sheet::Sheet;
pub use station::Station;
pub use sums::add_residuals;
pub use tally::{Added, Tally};
pub use units::{CIRCLE, HALF_UNIT, PARTS, UNIT};
pub use verdict::{check, check_with};
