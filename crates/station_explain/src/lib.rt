//! What each fault means that the line of a refusal can name.
//!
//! | Call | Does |
//! |---|---|
//! | `all_explanations` | the explanations of all faults |
//! | `fault_named_in` | the name of a fault in the line of a refusal, or in a part of it |
//! | `explanation_meant` | the explanation of a name |
//! | `list_of_near_names` | the names that are near a text which is no name |
//! | `explaining_text` | what a fault means, or the names of all |
#![tactic(auto)]

mod explain;
mod explanations;
mod naming;

pub use explain::{explaining_text, list_of_near_names};
pub use explanations::{Explanation, Said, all_explanations, explanation_meant};
pub use naming::fault_named_in;
