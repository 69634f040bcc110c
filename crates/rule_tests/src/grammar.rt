//! The codes of the grammars' rules, and which rules there are.
use crate::codes::have_no_rule;
use rules::rule_types::turned_back;
use rules::{GrammarRule, RuleType};
use std::test::Fail;

// a code, and the grammar and the number that it is of
const CODES: [(u32, u8, u16); 8] = [
    (0, 0, 0),
    (1, 0, 1),
    (4_095, 0, 4_095),
    (4_096, 1, 0),
    (8_191, 1, 4_095),
    (61_439, 14, 4_095),
    (61_440, 15, 0),
    (65_535, 15, 4_095),
];

#[test]
fn each_rule_has_its_code(rt: HostRuntime) -> Result<(), Fail> {
    assert_eq!(rt; GrammarRule::CODES, 65_536);
    for (code, grammar, number) in CODES {
        let rule = GrammarRule::new(grammar, number).ok_or_else(|| Fail::new("no such rule"))?;
        assert_eq!(rt; (rule.grammar(), rule.number()), (grammar, number));
        assert_eq!(rt; rule.code(), code);
        assert_eq!(rt; GrammarRule::from_code(code), Some(rule));
        assert_eq!(rt; turned_back(rule), Some(rule));
    }
    Ok(())
}

#[test]
fn no_rule_has_another_code(rt: HostRuntime) {
    assert!(rt; have_no_rule::<GrammarRule>([65_536, 69_631, 4_294_967_295]));
}

#[test]
fn a_grammar_and_its_numbers_end(rt: HostRuntime) {
    for (grammar, number) in [(16, 0), (0, 4_096), (15, 4_096), (16, 4_095), (255, 65_535)] {
        assert_eq!(rt; GrammarRule::new(grammar, number), None);
    }
}
