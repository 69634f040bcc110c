//! The rules that a pair can be of: what a rule type is, and the two that there are.
#![tactic(auto)]

pub mod grammar;
pub mod plant;
pub mod rule_types;

pub use grammar::GrammarRule;
pub use plant::PlantRule;
pub use rule_types::RuleType;
