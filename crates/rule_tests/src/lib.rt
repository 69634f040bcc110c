//! Examples of the rule types: codes both ways, at the edges and past them.
#![tactic(auto)]

#[cfg(test)]
mod codes;
#[cfg(test)]
mod grammar;
#[cfg(test)]
mod plant;
