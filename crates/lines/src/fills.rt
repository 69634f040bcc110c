//! Filling a line table from a text.
ghost use Rattle.std.specs.Prelude.{◌≡◌, ◌<◌, ◌≤◌, length, count_by};
ghost use Rattle.text.specs.Limits.{text_limit};
ghost use Rattle.lines.specs.Fills.{Filled, Roomed, over, starts_of};
ghost use Rattle.lines.specs.Starts.{line_feed, starts};

use crate::faults::LineFault;
use crate::feeds::count_line_feeds;
use crate::indexes::LineIndex;
use text::within_limit;

impl<'b> LineIndex<'b> {
    // How many starts of the text come after the first; refused where the buffer has no room for them all.
    fn later_starts(&self, text: &[u8]) -> Result<usize, LineFault>
        ensures { Roomed text.now self.now result }
    {
        within_limit(text)?;
        let later = count_line_feeds(text);
        if self.line_offsets.len() <= later {
            return Err(LineFault::Short {
                needed: later as u64 + 1,
            });
        }
        Ok(later)
    }

    // Notes the starts of the text, of which `later` come after the first.
    fn note(&mut self, text: &[u8], later: usize)
        requires short { length text.now ≤ text_limit }
        requires count { later ≡ count_by line_feed text.now }
        requires room { later < length self.old.line_offsets.now }
        ensures starts { starts_of self.new ≡ starts text.now }
        ensures buffer { self.new.line_offsets.now ≡ over text.now self.old.line_offsets.now }
        ensures lender { self.new.line_offsets.ghost_name ≡ self.old.line_offsets.ghost_name }
    {
        // the table is 0 alone while its buffer changes
        self.more = 0;
        self.line_offsets[0] = 0;
        // n, the next free entry, by hand: of `zip` over the entries the prover says "the borrow checker does not cover" it yet
        let mut n: usize = 1;
        for (i, b) in text.iter().enumerate() {
            if *b == b'\n' {
                self.line_offsets[n] = i as u32 + 1;
                n += 1;
            }
        }
        self.more = later;
    }

    /// Notes the line starts of `text` in the table's buffer: 0, and the offset after each LF. Past them the buffer stays.
    /// Refused, and all stays, where the text is over the limit or the buffer has fewer entries than there are starts.
    pub fn fill(&mut self, text: &[u8]) -> Result<(), LineFault>
        ensures filled { Filled text.now self.old self.new result }
        ensures lender { self.new.line_offsets.ghost_name ≡ self.old.line_offsets.ghost_name }
    {
        let later = self.later_starts(text)?;
        self.note(text, later);
        Ok(())
    }
}
