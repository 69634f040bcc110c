//! Examples of the rules for texts, spans and lines: expected values come from the Unicode Standard's table and from the rules.
#![tactic(auto)]

#[cfg(test)]
mod line_columns;
#[cfg(test)]
mod sequences;
#[cfg(test)]
mod sound_spans;
