//! Which spans of a text are sound.
ghost use Rattle.std.specs.Prelude.{◌≡◌, ◌↔◌, IsOk};
ghost use Rattle.spans.specs.Sound.{Sound, spanned};

use crate::characters::is_boundary;
use crate::faults::{SpanCause, UnsoundSpan};

/// Whether the span from `start` to `end` is sound: start ≤ end ≤ length, both boundaries. If not, why.
/// The bytes may be any, well-formed or not.
pub fn check_span(text: &[u8], start: u32, end: u32) -> Result<(), UnsoundSpan>
    ensures value { result ≡ spanned text.now start end }
    ensures sound { IsOk result ↔ Sound text.now start end }
{
    let cause = if start > end {
        SpanCause::StartAfterEnd
    } else if end as usize > text.len() {
        SpanCause::EndPastText
    } else if !is_boundary(text, start) {
        SpanCause::StartInCharacter
    } else if !is_boundary(text, end) {
        SpanCause::EndInCharacter
    } else {
        return Ok(());
    };
    Err(UnsoundSpan { start, cause })
}
