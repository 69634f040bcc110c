//! Sound spans, and the causes of unsound ones.
use spans::faults::{SpanCause, UnsoundSpan};
use spans::{Span, check_span, count_characters, is_boundary};
use std::test::Fail;
use text::refusals::Refusal;

// 💖
const HEART: [u8; 4] = [0xF0, 0x9F, 0x92, 0x96];

// start, end, and the cause
const SPANS: [(u32, u32, Option<SpanCause>); 12] = [
    (0, 4, None),
    (0, 0, None),
    (4, 4, None),
    (0, 1, Some(SpanCause::EndInCharacter)),
    (0, 3, Some(SpanCause::EndInCharacter)),
    (1, 4, Some(SpanCause::StartInCharacter)),
    (1, 1, Some(SpanCause::StartInCharacter)),
    (3, 2, Some(SpanCause::StartAfterEnd)),
    (9, 8, Some(SpanCause::StartAfterEnd)),
    (1, 5, Some(SpanCause::EndPastText)),
    (5, 5, Some(SpanCause::EndPastText)),
    (4_294_967_295, 4_294_967_295, Some(SpanCause::EndPastText)),
];

#[test]
fn causes_come_in_their_order(rt: HostRuntime) {
    for (start, end, cause) in SPANS {
        let unsound = check_span(&HEART, start, end).err();
        assert_eq!(rt; unsound, cause.map(|cause| UnsoundSpan { start, cause }));
    }
}

// the start and the end of the span that is made
fn made(text: &[u8], start: u32, end: u32) -> Result<(u32, u32), Refusal> {
    let span = Span::new(text, start, end)?;
    Ok((span.start(), span.end()))
}

#[test]
fn spans_are_made_or_refused_at_their_start(rt: HostRuntime) {
    let unsound = |place| Err(Refusal { number: 11, place });
    assert_eq!(rt; made(&HEART, 0, 4), Ok((0, 4)));
    assert_eq!(rt; made(&HEART, 0, 1), unsound(0));
    assert_eq!(rt; made(&HEART, 2, 4), unsound(2));
    assert_eq!(rt; made(&[], 0, 0), Ok((0, 0)));
    assert_eq!(rt; made(&[], 7, 0), unsound(7));
}

#[test]
fn a_text_over_the_limit_comes_first(rt: HostRuntime) -> Result<(), Fail> {
    let mut text = Vec::new(rt.alloc());
    text.resize(1_048_577, b'x')?;
    let long = Err(Refusal {
        number: 1,
        place: 1_048_577,
    });
    assert_eq!(rt; made(text.as_slice(), 5, 1), long);
    assert_eq!(rt; made(text.as_slice(), 0, 0), long);
    Ok(())
}

#[test]
fn any_bytes_have_boundaries(rt: HostRuntime) {
    // 0 is one even where the first byte goes on with no character
    let bytes = [0x80, 0xBF, b'a', 0xC0];
    assert!(rt; is_boundary(&bytes, 0));
    assert!(rt; !is_boundary(&bytes, 1));
    assert!(rt; is_boundary(&bytes, 2) && is_boundary(&bytes, 3) && is_boundary(&bytes, 4));
    assert!(rt; !is_boundary(&bytes, 5));
    assert_eq!(rt; count_characters(&bytes), 2);
    assert_eq!(rt; count_characters("a é 你 💖".as_bytes()), 7);
}
