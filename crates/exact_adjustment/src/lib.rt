//! The exact least-squares adjustment of a station, complete or not.
//!
//! [`adjust`] answers an [`Adjustment`]: directions, orientations and full turns over one
//! denominator, of any size, with all sums of residuals exactly 0; or an [`AdjustError`]. It is the
//! least-squares adjustment, least over all full turns too, by [`laws::least`]. A solver that
//! nothing rests on finds it, and [`is_exact`] tests it.
#![tactic(auto)]

mod adjusting;
mod adjustment;
mod bounds;
mod certificate;
mod exact;
mod fault;
pub mod laws;
mod nearest;
mod residuals;

pub use adjusting::adjust;
pub use adjustment::Adjustment;
pub use bounds::LARGEST_FACTOR;
pub use exact::is_exact;
pub use fault::{AdjustError, AdjustFault};
pub use residuals::greatest_above;
