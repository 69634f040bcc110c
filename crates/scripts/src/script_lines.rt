//! The lines of a script.
ghost use Rattle.std.specs.Prelude.{◌≡◌, ◌<◌, ◌≤◌, length, IfSome};
ghost use Rattle.std.specs.Option.{option_map};
ghost use Rattle.scripts.specs.Lines.{first_line, cut};

use crate::parts::{before, onward};

/// The first line, without its LF, and what stands after that LF. A last line may lack its LF.
/// None where there are no bytes: a final LF begins no further line.
pub fn first_line(script: &[u8]) -> Option<(&[u8], &[u8])>
    ensures value { option_map cut result ≡ first_line script.now }
    ensures within { IfSome result (λ p. length p.0.now ≤ length script.now) }
    ensures shorter { IfSome result (λ p. length p.1.now < length script.now) }
{
    if script.is_empty() {
        return None;
    }
    let line = before(script, b'\n');
    Some((line, onward(script, line.len() + 1)))
}
