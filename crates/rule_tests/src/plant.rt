//! The codes of the plant's rules.
use crate::codes::have_no_rule;
use rules::rule_types::turned_back;
use rules::{PlantRule, RuleType};

const RULES: [(u32, PlantRule); 12] = [
    (0, PlantRule::Line),
    (1, PlantRule::Stamp),
    (2, PlantRule::Plant),
    (3, PlantRule::Key),
    (4, PlantRule::Value),
    (5, PlantRule::Unit),
    (6, PlantRule::Brine),
    (7, PlantRule::Setpoint),
    (8, PlantRule::Alarm),
    (9, PlantRule::Note),
    (10, PlantRule::Comment),
    (11, PlantRule::End),
];

#[test]
fn each_rule_has_its_code(rt: HostRuntime) {
    assert_eq!(rt; PlantRule::CODES, 12);
    for (code, rule) in RULES {
        assert_eq!(rt; rule.code(), code);
        assert_eq!(rt; PlantRule::from_code(code), Some(rule));
        assert_eq!(rt; turned_back(rule), Some(rule));
    }
}

#[test]
fn no_rule_has_another_code(rt: HostRuntime) {
    assert!(rt; have_no_rule::<PlantRule>([12, 65_535, 4_294_967_295]));
}
