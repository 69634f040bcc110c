//! Lines and columns of a text, by reading it or by a table of its line starts.
#![tactic(auto)]

pub mod faults;
mod feeds;
mod fills;
pub mod indexes;
mod looks;
pub mod positions;
mod reads;

pub use indexes::LineIndex;
pub use positions::Position;
