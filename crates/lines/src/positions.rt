//! A position in a text.
ghost use Rattle.std.specs.Prelude.{◌≡◌};
ghost use Rattle.lines.specs.LineCols.{line_col};
ghost use Rattle.spans.specs.Sound.{Sound};

use crate::reads::line_col_at;
use spans::Span;
use spans::faults::SpanFault;

/// An offset of a text at which a character begins, or its end.
// No derived equality: it would compare the texts byte by byte, and pest compares where they lie.
#[derive(Clone, Copy)]
pub struct Position<'i> {
    input: &'i [u8],
    pos: u32,
    ghost sound: { Sound input.now pos pos },
}

impl<'i> Position<'i> {
    ghost use Rattle.lines.specs.Opened.{PositionOpened};

    /// The position of `input` at the offset `pos`. Refused as the empty span there is.
    pub fn new(input: &'i [u8], pos: u32) -> Result<Position<'i>, SpanFault>
        ensures { PositionOpened input.now pos result }
    {
        Span::new(input, pos, pos)?;
        Ok(Position { input, pos })
    }

    /// The position's offset.
    pub fn pos(&self) -> u32
        ensures { result ≡ self.now.pos }
    {
        self.pos
    }

    /// The line and the column, read from the beginning of the text.
    pub fn line_col(&self) -> (usize, usize)
        ensures { result ≡ line_col self.now.input.now self.now.pos }
    {
        line_col_at(self.input, self.pos)
    }
}
