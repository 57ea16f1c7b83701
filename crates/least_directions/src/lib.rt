//! A station's least-squares directions: how far stated ones are apart from them, and these,
//! rounded.
//!
//! `apart_by` takes the directions that a program printed, one for each target of a station,
//! complete or not, and tells how near one rotation brings them to the least-squares directions:
//! least over all directions, orientations, denominators and full turns. `rounded_directions`
//! answers these directions themselves, rounded to steps, and `rounded_by` by an adjustment. All
//! are exact.
#![tactic(auto)]

mod apart;
pub mod laws;
mod rounded;

pub use apart::apart_by;
pub use rounded::{rounded_by, rounded_directions};
