//! Nodes with their depths, the forest that they list, and the queue of tokens that it writes.
#![tactic(auto)]

pub mod listing;
pub mod nodes;
pub mod pushes;
pub mod records;
pub mod slices;
pub mod tokens;
pub mod writes;
