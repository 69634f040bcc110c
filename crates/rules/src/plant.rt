//! The plant's rules: twelve, by name.
ghost use Rattle.rules.specs.Codes.{plant_code};
ghost use Rattle.std.specs.Prelude.{List, [], ◌∷◌, refl};
ghost use Rattle.std.proofs.Common.{arith, rules};
ghost use Rattle.rules.specs.declared.plant.PlantRule.{PlantRule};
ghost use Rattle.rules.specs.declared.plant.PlantRule.TheVariants.{Line, Stamp, Plant, Key, Value, Unit, Brine, Setpoint, Alarm, Note, Comment, End};
ghost use Rattle.rules.specs.PlantRuleTypeLemmas.{nth};

use crate::rule_types::RuleType;

/// One of the plant's rules.
#[derive(Clone, Copy, Debug, PartialEq, Eq, Hash, PartialOrd, Ord, Default)]
pub enum PlantRule {
    #[default]
    Line,
    Stamp,
    Plant,
    Key,
    Value,
    Unit,
    Brine,
    Setpoint,
    Alarm,
    Note,
    Comment,
    End,
}

/// The codes 0 to 11, in the order of the variants.
impl RuleType for PlantRule {
    const CODES: u32 = 12;

    ghost CODES = { 12 };

    ghost coded = { plant_code };

    ghost few = { Prim.search rules };

    ghost below = { Prim.search rules };

    ghost apart = { Prim.search rules };

    ghost each = { λ n h.
        let all : List PlantRule = Line ∷ Stamp ∷ Plant ∷ Key ∷ Value ∷ Unit ∷ Brine ∷ Setpoint ∷ Alarm ∷ Note ∷ Comment ∷ End ∷ [] in
        let r = nth 0 n all refl h in
        (r.0, Prim.omega (arith, r.1)) };

    fn code(self) -> u32 {
        self as u32
    }

    fn from_code(code: u32) -> Option<PlantRule> {
        match code {
            0 => Some(PlantRule::Line),
            1 => Some(PlantRule::Stamp),
            2 => Some(PlantRule::Plant),
            3 => Some(PlantRule::Key),
            4 => Some(PlantRule::Value),
            5 => Some(PlantRule::Unit),
            6 => Some(PlantRule::Brine),
            7 => Some(PlantRule::Setpoint),
            8 => Some(PlantRule::Alarm),
            9 => Some(PlantRule::Note),
            10 => Some(PlantRule::Comment),
            11 => Some(PlantRule::End),
            _ => None,
        }
    }
}
