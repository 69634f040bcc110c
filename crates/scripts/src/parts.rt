//! Parts of some bytes.
ghost use Rattle.std.specs.Prelude.{◌≡◌, ◌==◌, drop, position};
ghost use Rattle.scripts.specs.Parts.{up_to};

// The place of the first `stop`.
fn place_of(bytes: &[u8], stop: u8) -> Option<usize>
    ensures { result ≡ position (λ b. b == stop) bytes.now }
{
    bytes.iter().position(|b| *b == stop)
}

/// The bytes before the first `stop`, or all of them where there is none.
pub(crate) fn before(bytes: &[u8], stop: u8) -> &[u8]
    ensures { result.now ≡ up_to stop bytes.now }
{
    let end = place_of(bytes, stop).unwrap_or(bytes.len());
    &bytes[..end]
}

/// The bytes from `place` on, none where `place` is past the end.
pub(crate) fn onward(bytes: &[u8], place: usize) -> &[u8]
    ensures { result.now ≡ drop place bytes.now }
{
    bytes.get(place..).unwrap_or(&[])
}
