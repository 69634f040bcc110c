//! Examples of the builder's calls and of the queue that it writes; expected values come from the rules.
#![tactic(auto)]

#[cfg(test)]
mod builds;
#[cfg(test)]
mod calls;
pub mod depths;
