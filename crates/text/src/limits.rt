//! How long a text may be.
ghost use Rattle.std.specs.Prelude.{◌≡◌};
ghost use Rattle.text.specs.Limits.{limited};

use crate::faults::TooLong;

/// The most bytes that a text may have.
pub const TEXT_LIMIT: usize = 1_048_576;

/// Whether `text` is within the limit; if not, its length is refused.
pub fn within_limit(text: &[u8]) -> Result<(), TooLong>
    ensures { result ≡ limited text.now }
{
    if text.len() > TEXT_LIMIT {
        return Err(TooLong {
            length: text.len() as u64,
        });
    }
    Ok(())
}
