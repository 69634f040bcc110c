//! The library's calls as numbers and byte slices alone, for a driver in Rust or C: `exports_c` exports them.
#![tactic(auto)]

ghost use Rattle.exports.specs.Numbers.{numbered};

use text::refusals::Refusal;

/// 0 where the text is well-formed, else the refusal's number.
// a number, for C has no Result
pub fn tree_well_formed(text: &[u8]) -> u8
    ensures { numbered text.now result }
{
    match text::well_formed(text) {
        Ok(()) => 0,
        Err(fault) => Refusal::from(fault).number,
    }
}
