//! The report of a station: what a survey office prints and files of its sets.
//!
//! `computed_of` answers what is computed of a station, and `text_by` by that a text of fixed
//! columns: by set and target the readings of both faces, their mean, 2c and 2i; the zenith angles,
//! and their means by target; the adjusted directions; the residuals; the greatest of them; and how
//! accurate directions are.
#![tactic(auto)]

mod accuracy;
mod by_set;
mod columns;
mod computed;
mod computing;
mod deviation;
mod directions;
mod ending;
mod face_means;
mod gaps;
mod head;
mod labels;
pub mod laws;
mod lines;
mod notes;
mod place_of;
mod places;
mod readings;
mod report;
mod residual_columns;
mod root;
mod squares;
mod text;
mod together;
mod zenith_means;
mod zenith_sums;
mod zeniths;

pub use accuracy::Accuracy;
pub use columns::{push_count, push_left, push_right};
pub use computed::Computed;
pub use computing::{computed_by, computed_of};
pub use deviation::{accuracy_by, degrees_of};
pub use face_means::{FaceMean, means_of_faces, push_wide_mgon};
pub use head::{Head, push_file};
pub use labels::{push_label, push_phrase};
pub use readings::{READ_UNIT, reading_one, reading_two, zenith_mean, zenith_one, zenith_two};
pub use report::text_by;
