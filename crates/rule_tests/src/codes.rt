//! Codes of either kind of rules.
use rules::RuleType;

// Whether no rule of `R` has any of the codes.
pub(crate) fn have_no_rule<R: RuleType>(codes: [u32; 3]) -> bool {
    codes.iter().all(|code| R::from_code(*code).is_none())
}
