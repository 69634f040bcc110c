//! Scripts: what a script's lines say, the record that they make, and the refusals.
#![tactic(auto)]

pub mod commands;
mod cursor;
pub mod drafts;
pub mod faults;
pub mod kinds;
pub mod numbers;
mod parts;
mod problems;
pub mod reading;
mod records;
pub mod script_lines;
pub mod words;
