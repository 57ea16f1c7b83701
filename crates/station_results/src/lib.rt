//! The results of a station as numbers: its observations with their adjusted directions and their
//! residuals, and the greatest of these.
//!
//! `adjusted_observations` takes the exact adjustment of a station and answers, for each two-face
//! direction, the adjusted direction and the residual, exactly rounded: those of the least-squares
//! directions, orientations and full turns. `greatest_of` answers the place of the greatest
//! residual, and `greatest_size` its size. Nothing here reads a file or makes a text.
#![tactic(auto)]

mod adjusted;
mod greatest;
pub mod laws;
mod residual;
mod size;

pub use adjusted::{AdjustedObs, adjusted_by, adjusted_observations};
pub use greatest::{greatest_of, size_at};
pub use residual::{LIFT, lifted, sides};
pub use size::greatest_size;
