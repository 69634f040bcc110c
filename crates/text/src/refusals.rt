//! What every refusal has: its number and its place.

/// A refusal by its number, with the place that the number's row in docs/refusals.md speaks of.
#[derive(Clone, Copy, PartialEq, Eq, Debug)]
pub struct Refusal {
    // a number: the fault that a refusal is made of is the enum, and this is what is printed and handed to C
    pub number: u8,
    pub place: u64,
}
