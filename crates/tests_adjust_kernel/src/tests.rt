//! What no clause says: stations and sheets worked by hand, the limits that names, sheets and
//! stations keep, the texts of faults, and a tally without memory.

mod names;
mod residual_limits;
mod sheets;
mod stations;
mod tallies;
mod verdicts;
