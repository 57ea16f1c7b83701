//! Angles as text, as results state them: directions in gon, face differences and residuals in
//! mgon.
//!
//! | Call | Adds to a text |
//! |---|---|
//! | `push_gon` | a direction in gon, with six decimals |
//! | `push_short_gon` | a direction in gon, with five decimals |
//! | `push_mgon` | an angle in mgon, with three decimals |
//! | `push_short_mgon` | an angle in mgon, with two decimals |
//! | `push_thousandths` | a number with three decimals |
//!
//! `digit` is one digit, for decimals beyond these.
#![tactic(auto)]

mod digits;
mod gon;
mod mgon;

pub use digits::digit;
pub use gon::{push_gon, push_short_gon};
pub use mgon::{push_mgon, push_short_mgon, push_thousandths};
