//! The rules of sixteen grammars.
ghost use Rattle.std.specs.Prelude.{◌≡◌, ◌/◌, ◌%◌, ◌≤◌, ◌↔◌, IsSome, IfSome};
ghost use Rattle.rules.specs.Codes.{grammar_code};
ghost use Rattle.std.proofs.Common.{arith, rules};

use crate::rule_types::RuleType;

/// A rule by its grammar, 0 to 15, and its number there, 0 to 4,095.
#[derive(Clone, Copy, Debug, PartialEq, Eq, Hash, PartialOrd, Ord)]
pub struct GrammarRule {
    grammar: u8,
    number: u16,
    ghost few: { grammar ≤ 15 },
    ghost small: { number ≤ 4095 },
}

impl GrammarRule {
    /// The grammar's rule of that number, or None where the grammar is over 15 or the number over 4,095.
    pub fn new(grammar: u8, number: u16) -> Option<GrammarRule>
        ensures valid { IsSome result ↔ ((grammar ≤ 15) × (number ≤ 4095)) }
        ensures value { IfSome result (λ x. (x.grammar ≡ grammar) × (x.number ≡ number)) }
    {
        if grammar > 15 || number > 4095 {
            return None;
        }
        Some(GrammarRule { grammar, number })
    }

    /// Which grammar the rule is of, 0 to 15.
    pub fn grammar(&self) -> u8
        ensures { result ≡ self.now.grammar }
    {
        self.grammar
    }

    /// The rule's number in its grammar, 0 to 4,095.
    pub fn number(&self) -> u16
        ensures { result ≡ self.now.number }
    {
        self.number
    }
}

/// The rule with the code 0.
// by hand: `Default` cannot be derived for a struct with a ghost field
impl Default for GrammarRule {
    ghost is_default = { λ x. (x.grammar ≡ 0) × (x.number ≡ 0) };

    fn default() -> GrammarRule {
        GrammarRule {
            grammar: 0,
            number: 0,
        }
    }
}

/// The codes 0 to 65,535: 4,096 of each grammar.
impl RuleType for GrammarRule {
    const CODES: u32 = 65_536;

    ghost CODES = { 65536 };

    ghost coded = { λ x. grammar_code x.grammar x.number };

    ghost few = { Prim.search rules };

    ghost below = { Prim.search rules };

    ghost apart = { Prim.grind (arith, Self.row.coded.inj) };

    ghost each = { λ n h. (
      record {
        grammar = n / 4096;
        number = n % 4096;
        few = Prim.omega arith;
        small = Prim.omega arith;
      },
      Prim.omega arith,
    ) };

    fn code(self) -> u32 {
        let GrammarRule { grammar, number } = self;
        u32::from(grammar) * 4096 + u32::from(number)
    }

    fn from_code(code: u32) -> Option<GrammarRule> {
        let grammar = u8::try_from(code / 4096).ok()?;
        GrammarRule::new(grammar, (code % 4096) as u16)
    }
}
