//! Builds the queue of a forest: pairs are listed one after the other with their depths, and written at the end.
#![tactic(auto)]

mod adds;
pub mod builder;
pub mod builds;
mod checks;
mod closes;
pub mod faults;
mod tags;
mod writing;

pub use builder::PairsBuilder;
