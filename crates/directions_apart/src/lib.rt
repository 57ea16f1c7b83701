//! How far stated directions are apart from the least-squares ones of a station, and these,
//! rounded.
//!
//! A program prints directions as decimals of a gon, or in degrees. `apart_of` tells how near one
//! rotation brings them to the directions of an exact adjustment: exactly, in whole units of
//! 0.000001 gon, rounded up. `rounded` answers a direction of the adjustment as tables print it,
//! exactly rounded. `difference`, `way_round` and `on_circle` are the angles that the first is made
//! of.
//!
//! Stated directions are in parts, 81 of which are 0.000000001 gon: so 9 decimals of a gon are
//! whole, 9 of a degree, and 6 of a second.
#![tactic(auto)]

mod apart;
mod arc;
mod circle;
mod differences;
pub mod laws;
mod rounding;

pub use apart::{MOST_OFF, apart_of};
pub use circle::{on_circle, way_round};
pub use differences::difference;
pub use rounding::rounded;
