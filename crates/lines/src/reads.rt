//! Lines and columns by reading a text from its beginning.
ghost use Rattle.std.specs.Prelude.{◌≡◌, length};
ghost use Rattle.lines.specs.LineCols.{line_col};

use crate::feeds::count_line_feeds;
use spans::count_characters;

// The line and the column at the end of `text`.
fn read_line_col(text: &[u8]) -> (usize, usize)
    ensures { result ≡ line_col text.now (length text.now) }
{
    // where the last line begins; it has no LF
    let from = text
        .iter()
        .rposition(|b| *b == b'\n')
        .map_or(0, |feed| feed + 1);
    (
        1 + count_line_feeds(&text[..from]),
        1 + count_characters(&text[from..]),
    )
}

// The line and the column of the offset `pos`, or of the text's end where it is past that.
pub(crate) fn line_col_at(text: &[u8], pos: u32) -> (usize, usize)
    ensures { result ≡ line_col text.now pos }
{
    let end = text.len().min(pos as usize);
    read_line_col(&text[0..end])
}
