//! Lines and columns by a table.
ghost use Rattle.std.specs.Prelude.{◌≡◌, ◌-◌, ◌<◌, ◌≤◌, length, drop, slice_index, take};
ghost use Rattle.lines.specs.Fills.{starts_of};
ghost use Rattle.lines.specs.LineCols.{line_col_by, upto};
ghost use Rattle.lines.specs.Looks.{looked_up, read_at};
ghost use Rattle.lines.specs.Starts.{starts};

use crate::indexes::LineIndex;
use spans::faults::SpanFault;
use spans::{Span, count_characters};

impl<'b> LineIndex<'b> {
    // The noted starts after the first.
    fn later(&self) -> &[u32]
        ensures { result.now ≡ take self.now.more (drop 1 self.now.line_offsets.now) }
    {
        self.line_offsets.get(1..1 + self.more).unwrap_or(&[])
    }

    // How many of the starts are at or before `pos`.
    fn line_of(&self, pos: u32) -> usize
        ensures count { result ≡ upto pos (starts_of self.now) }
        ensures some { 0 < result }
        ensures within { result - 1 ≤ self.now.more }
        ensures last { slice_index (starts_of self.now) (result - 1) ≤ pos }
    {
        1 + self.later().partition_point(|start| *start <= pos)
    }

    // Where a line begins; the first begins at 0.
    fn start_of(&self, line: usize) -> u32
        requires some { 0 < line }
        requires within { line - 1 ≤ self.now.more }
        ensures { result ≡ slice_index (starts_of self.now) (line - 1) }
    {
        match line {
            1 => 0,
            _ => self.line_offsets[line - 1],
        }
    }

    // The line and the column of an offset of `text`.
    fn place_of(&self, text: &[u8], pos: u32) -> (usize, usize)
        requires { pos ≤ length text.now }
        ensures { result ≡ line_col_by (starts_of self.now) text.now pos }
    {
        let line = self.line_of(pos);
        let from = self.start_of(line);
        (
            line,
            1 + count_characters(&text[from as usize..pos as usize]),
        )
    }

    /// The line and the column of the offset `pos` of `text`, by the table's starts.
    /// Refused as the empty span at `pos` is. Of a table filled from `text`, the answer is what reading `text` gives.
    pub fn line_col(&self, text: &[u8], pos: u32) -> Result<(usize, usize), SpanFault>
        ensures value { result ≡ looked_up (starts_of self.now) text.now pos }
        ensures agrees { starts_of self.now ≡ starts text.now → result ≡ read_at text.now pos }
    {
        Span::new(text, pos, pos)?;
        Ok(self.place_of(text, pos))
    }
}
