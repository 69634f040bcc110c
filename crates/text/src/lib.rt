//! Which bytes are a text: at most 1,048,576 of them, well-formed UTF-8 by Table 3-7 of the Unicode Standard.
#![tactic(auto)]

mod ascii;
pub mod faults;
pub mod limits;
pub mod refusals;
pub mod sequences;
pub mod splits;

pub use limits::within_limit;
pub use splits::well_formed;
