//! The two editions of the rule by which a station's readings are divided into sets: what the first
//! marks the second divides the same or refuses.
#![tactic(auto)]

pub mod laws;
