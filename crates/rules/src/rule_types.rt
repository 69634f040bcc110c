//! What a rule type is: a type whose values have the codes from 0 on, each code one value.
ghost use Rattle.std.specs.Prelude.{◌≡◌, ℕ, ◌<◌, ◌≤◌, Some, MatchOption};

/// A type of rules, numbered by codes.
pub trait RuleType: Sized + Copy {
    /// How many codes the type has, at most 65,536.
    const CODES: u32;

    // the constant, for clauses
    ghost CODES: { ℕ };

    // the code of a rule
    ghost coded: { Self → ℕ };

    /// The code of the rule.
    // `From` and `TryFrom` would be asked of each rule type beside this trait, and would be no plainer.
    fn code(self) -> u32
        ensures { result ≡ coded self };

    /// The rule that has the code, or None where no rule has it: from the number of codes on.
    fn from_code(code: u32) -> Option<Self>
        ensures { MatchOption result (CODES ≤ code) (λ x. coded x ≡ code) };

    ghost few: { CODES ≤ 65536 };

    ghost below: { (x : Self) → coded x < CODES };

    ghost apart: { (x y : Self) → coded x ≡ coded y → x ≡ y };

    ghost each: { (n : ℕ) → n < CODES → (x : Self) × (coded x ≡ n) };
}

/// The rule that has the code of `rule`: `rule` itself, and never None, whatever the rule type.
pub fn turned_back<R: RuleType>(rule: R) -> Option<R>
    ensures { result ≡ Some rule }
{
    R::from_code(rule.code())
}
