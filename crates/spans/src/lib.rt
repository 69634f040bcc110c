//! Where characters begin in a text, which spans of it are sound, and why one is not.
#![tactic(auto)]

pub mod characters;
pub mod faults;
pub mod sound;
mod spans;

pub use characters::{count_characters, is_boundary};
pub use sound::check_span;
pub use spans::Span;
