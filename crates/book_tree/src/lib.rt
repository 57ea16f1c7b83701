//! A field book as a tree: its stations, their sets and the readings of each set. The tree goes on
//! from block to block, and says what the definitions by places find, which look back over them.
#![tactic(auto)]

pub mod laws;
