//! The sheet of a complete station: the means of its sets, which the kernel accepts.
#![tactic(auto)]

mod adjusted;
mod angle;
mod complete;
mod fault;
pub mod laws;
mod rows;
mod sheet;
mod totals;
mod turn;

pub use fault::MeansFault;
pub use sheet::means;
