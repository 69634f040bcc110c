//! Characters and the boundaries between them, in any bytes.
ghost use Rattle.std.specs.Prelude.{◌≡◌, ◌≤◌, length};
ghost use Rattle.text.specs.Characters.{begins, boundary, characters};

/// Whether a character begins with the byte `b`: it does unless `b` is from 80 to BF hex.
pub fn begins_character(b: u8) -> bool
    ensures { result ≡ begins b }
{
    !matches!(b, 0x80..=0xBF)
}

/// How many characters begin in `bytes`.
// By a sum: a count of what a filter leaves is not vectorized, and was measured slower (docs/speed.md).
pub fn count_characters(bytes: &[u8]) -> usize
    ensures value { result ≡ characters bytes.now }
    ensures bound { result ≤ length bytes.now }
{
    bytes
        .iter()
        .map(|b| usize::from(begins_character(*b)))
        .sum()
}

/// Whether `offset` is 0, the text's length, or below that length where a character begins.
pub fn is_boundary(text: &[u8], offset: u32) -> bool
    ensures { result ≡ boundary text.now offset }
{
    let i = offset as usize;
    i == 0 || i == text.len() || i < text.len() && begins_character(text[i])
}
