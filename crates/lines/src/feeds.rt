//! The LFs of a text, each of which ends a line.
ghost use Rattle.std.specs.Prelude.{◌≡◌, ◌≤◌, length, count_by};
ghost use Rattle.lines.specs.Starts.{line_feed};

// How many LFs `text` has. By a sum, as `spans::count_characters`.
pub(crate) fn count_line_feeds(text: &[u8]) -> usize
    ensures value { result ≡ count_by line_feed text.now }
    ensures bound { result ≤ length text.now }
{
    text.iter().map(|b| usize::from(*b == b'\n')).sum()
}
