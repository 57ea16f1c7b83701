//! What is stated of a job, since no reading shows it: how its stations begin, and how many sets and
//! targets they have.
#![tactic(auto)]

mod beginnings;
mod numbers;
mod stated;
mod stated_code;
mod zeros;

pub use beginnings::Beginnings;
pub use numbers::{CountFault, Unstated, numbers_of};
pub use stated::{NamedNumber, Numbers, Stated, StatedNumber, is_another, is_asked};
pub use stated_code::station_code;
pub use zeros::bare_name;
