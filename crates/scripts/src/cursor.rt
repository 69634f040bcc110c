//! How far a script has been read.
ghost use Rattle.std.specs.Prelude.{◌≡◌, ◌+◌, ◌-◌, ◌≤◌, length, MatchOption, OnOk};
ghost use Rattle.text.specs.Refusing.{unless};
ghost use Rattle.scripts.specs.Commands.{orderly};
ghost use Rattle.scripts.specs.Laws.{ScriptLaws};
ghost use Rattle.scripts.specs.Lines.{lines};
ghost use Rattle.scripts.specs.Outcomes.{after_show, line_after, line_refusal, script_limit, sized};

use crate::commands::{Command, read_command};
use crate::faults::{ScriptFault, ScriptRefusal};
use crate::script_lines::first_line;

/// The most bytes that a script may have.
pub const LIMIT: usize = 32768;

// The refusal of a line that is another or missing, at an offset of the script.
fn refuse(line: u32, place: usize) -> ScriptRefusal
    requires { place ≤ script_limit }
    ensures { result ≡ line_refusal line place }
{
    ScriptRefusal {
        line,
        fault: ScriptFault::Other {
            place: place as u32,
        },
    }
}

/// One line: its number in the script, the offset of its first byte there, and its bytes without the LF.
#[derive(Clone, Copy)]
pub(crate) struct Line<'s> {
    pub(crate) number: u32,
    pub(crate) place: usize,
    pub(crate) bytes: &'s [u8],
    ghost within: { place + length bytes.now ≤ script_limit },
}

impl<'s> Line<'s> {
    ghost use Rattle.scripts.specs.Cursors.{order_at};

    /// The refusal of the line for what is wrong at an offset in it.
    pub(crate) fn refusal(&self, at: usize) -> ScriptRefusal
        requires { at ≤ length self.now.bytes.now }
        ensures { result ≡ line_refusal self.now.number (self.now.place + at) }
    {
        refuse(self.number, self.place + at)
    }

    /// The command that the line gives, or its refusal.
    pub(crate) fn command(&self) -> Result<Command<'s>, ScriptRefusal>
        ensures { orderly result ≡ order_at self.now }
    {
        // by `map_err` the prover does not know what the closure answers, since `refusal` requires something
        match read_command(self.bytes) {
            Ok(command) => Ok(command),
            Err(misread) => Err(self.refusal(misread.at)),
        }
    }
}

/// What is left of a script: its bytes, the number of the line that they begin with, and the whole script's size.
#[derive(Drop)]
pub(crate) struct Cursor<'s> {
    pub(crate) rest: &'s [u8],
    pub(crate) line: u32,
    pub(crate) size: usize,
    ghost within: { length rest.now ≤ size },
    ghost small: { size ≤ script_limit },
    ghost counted: { line + length rest.now ≤ size + 2 },
}

// The number of the line in which the byte after `front` stands. By a sum, as `spans::count_characters`.
fn line_after(front: &[u8]) -> u32
    requires { length front.now ≤ script_limit }
    ensures { result ≡ line_after front.now }
{
    let feeds: usize = front.iter().map(|byte| usize::from(*byte == b'\n')).sum();
    feeds as u32 + 1
}

/// Whether a script is within the limit. A longer one is refused at the first byte over it.
pub(crate) fn check_size(script: &[u8]) -> Result<(), ScriptRefusal>
    ensures value { result ≡ sized script.now }
    ensures small { OnOk result (length script.now ≤ script_limit) }
    ensures laws { ScriptLaws script.now }
{
    if script.len() > LIMIT {
        return Err(refuse(line_after(&script[..LIMIT]), LIMIT));
    }
    Ok(())
}

impl<'s> Cursor<'s> {
    ghost use Rattle.scripts.specs.Cursors.{Takes};

    /// The beginning of a script.
    pub(crate) fn new(script: &'s [u8]) -> Cursor<'s>
        requires { length script.now ≤ script_limit }
        ensures rest { result.rest.now ≡ script.now }
        ensures line { result.line ≡ 1 }
        ensures size { result.size ≡ length script.now }
    {
        Cursor {
            rest: script,
            line: 1,
            size: script.len(),
        }
    }

    /// The refusal of a line that is missing after the last.
    pub(crate) fn missing(&self) -> ScriptRefusal
        ensures { result ≡ line_refusal self.now.line self.now.size }
    {
        refuse(self.line, self.size)
    }

    /// Refuses a line where the script has to end. Its bytes are not looked at.
    pub(crate) fn check_end(&self) -> Result<(), ScriptRefusal>
        ensures { let place = self.now.size - length self.now.rest.now in
            result ≡ unless (after_show self.now.line place (lines self.now.rest.now)) tt }
    {
        if self.rest.is_empty() {
            return Ok(());
        }
        Err(refuse(self.line, self.size - self.rest.len()))
    }

    /// Takes the first line off, if any is left.
    pub(crate) fn take_line(&mut self) -> Option<Line<'s>>
        ensures { Takes self.old self.new result }
    {
        let (bytes, rest) = first_line(self.rest)?;
        let line = Line {
            number: self.line,
            place: self.size - self.rest.len(),
            bytes,
        };
        self.rest = rest;
        self.line += 1;
        Some(line)
    }
}
