//! The commands that the lines after a script's first one give.
ghost use Rattle.std.specs.Prelude.{◌≡◌, ◌≤◌, length, IfErr};
ghost use Rattle.std.specs.Option.{option_map};
ghost use Rattle.scripts.specs.Commands.{bare_order, ending, line_order, order_of, orderly, verb_of};

use crate::numbers::{Misread, Pair, read_pair};
use crate::words::{keyword, rest};

/// What one line tells the reader of a script to do.
#[derive(Clone, Copy, Debug, PartialEq, Eq, Hash)]
pub enum Command<'l> {
    /// Append these bytes to the text.
    Text(&'l [u8]),
    /// Append one LF to the text.
    Next,
    /// Add a pair.
    Rule(Pair),
    /// Add a pair and go inside it.
    Open(Pair),
    /// Leave the pair that was opened last.
    Close,
    /// Tag the pair to tag with these bytes.
    Tag(&'l [u8]),
    /// End the script.
    Show,
}

impl<'l> Command<'l> {
    /// Whether the command ends the script.
    pub fn ends(&self) -> bool
        ensures { result ≡ ending (order_of self.now) }
    {
        matches!(self, Command::Show)
    }
}

// A word that bytes or numbers follow. By name first: a `match` on bytes whose last arm is an error gets no proof.
#[derive(Clone, Copy)]
enum Verb {
    Text,
    Tag,
    Rule,
    Open,
}

fn read_verb(word: &[u8]) -> Option<Verb>
    ensures { result ≡ verb_of word.now }
{
    match word {
        b"text" => Some(Verb::Text),
        b"tag" => Some(Verb::Tag),
        b"rule" => Some(Verb::Rule),
        b"open" => Some(Verb::Open),
        _ => None,
    }
}

// The command of a line that is one word.
fn read_bare(line: &[u8]) -> Option<Command<'_>>
    ensures { option_map order_of result ≡ bare_order line.now }
{
    match line {
        b"next" => Some(Command::Next),
        b"show" => Some(Command::Show),
        b"close" => Some(Command::Close),
        _ => None,
    }
}

/// The command of a line, or the offset in the line of what is wrong with it: 0 where it is another line.
/// `text` and `tag` take what stands after one space, `rule` and `open` three numbers; nothing may follow the others.
pub fn read_command(line: &[u8]) -> Result<Command<'_>, Misread>
    ensures value { orderly result ≡ line_order line.now }
    ensures within { IfErr result (λ e. e.at ≤ length line.now) }
{
    if let Some(command) = read_bare(line) {
        return Ok(command);
    }
    let verb = read_verb(keyword(line).bytes()).ok_or(Misread { at: 0 })?;
    match verb {
        Verb::Text => Ok(Command::Text(rest(line, 5).bytes())),
        Verb::Tag => Ok(Command::Tag(rest(line, 4).bytes())),
        Verb::Rule => Ok(Command::Rule(read_pair(line)?)),
        Verb::Open => Ok(Command::Open(read_pair(line)?)),
    }
}
