//! The table of line starts.
ghost use Rattle.std.specs.Prelude.{◌≡◌, ◌-◌, ◌≤◌, length};
ghost use Rattle.std.specs.List.Sorted.{IsStrictlyIncreasing};
ghost use Rattle.lines.specs.Noted.{noted};

/// Where the lines of a text begin: 0 and then rising, in a buffer that the caller lends.
// A lent buffer with a count: nothing here may take memory of its own. No equality: past the count it is no part of the table.
#[derive(Drop)]
pub struct LineIndex<'b> {
    pub(crate) line_offsets: &'b mut [u32],
    // how many lines begin after the first, which begins at 0 whatever the buffer holds
    pub(crate) more: usize,
    ghost fits: { more ≤ length line_offsets.now - 1 },
    ghost rises: { IsStrictlyIncreasing (noted line_offsets.now more) },
}

impl<'b> LineIndex<'b> {
    /// A table with the line start 0 alone. The buffer stays as it is.
    pub fn new(line_offsets: &'b mut [u32]) -> LineIndex<'b>
        ensures alone { result.more ≡ 0 }
        ensures buffer { result.line_offsets.now ≡ line_offsets.old }
    {
        LineIndex {
            line_offsets,
            more: 0,
        }
    }
}
