//! The text of the residuals of a station, observation by observation.
//!
//! `text_of` answers, of a station's adjusted observations, a row for each two-face direction, with
//! the adjusted direction and the residual.
#![tactic(auto)]

mod text;

pub use text::text_of;
