//! The text of the report of a station as rows for other programs.
//!
//! `text_of` answers, of a station and its adjusted observations, a row of titles, and a row for
//! each two-face direction: the set, the target, what was read in both faces, the two-face
//! direction, both face differences, the adjusted direction, the residual, and the zenith angles of
//! both faces with their mean.
#![tactic(auto)]

mod text;

pub use text::text_of;
