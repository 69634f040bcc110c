//! The static library that a driver in Rust or C links: each function of `exports` under its C name.
#![tactic(auto)]

ghost use Rattle.exports.specs.Numbers.{numbered};

/// 0 where the text is well-formed, else the refusal's number.
// a number, for C has no Result
#[unsafe(no_mangle)]
pub extern "C" fn tree_well_formed(text: &[u8]) -> u8
    ensures { numbered text.now result }
{
    exports::tree_well_formed(text)
}
