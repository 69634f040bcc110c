//! Reading a whole script.
ghost use Rattle.std.specs.Prelude.{◌≡◌, ◌+◌, length, Ok, IfOk, MatchResult};
ghost use Rattle.queues.specs.Slices.{nodes_of};
ghost use Rattle.scripts.specs.Cursors.{outcome_of, shown_of};
ghost use Rattle.scripts.specs.Kinds.{kind_codes};
ghost use Rattle.scripts.specs.Laws.{ScriptLaws};
ghost use Rattle.scripts.specs.Outcomes.{blank, outcome, refused, started};
ghost use Rattle.scripts.specs.Reading.{BuiltAt, Fails, Means, Settles, token_limit};
ghost use Rattle.scripts.specs.Steps.{coding, drawn};
ghost use Rattle.scripts.specs.declared.kinds.Kind.TheVariants.{Plant, Grammar};

pub use crate::cursor::LIMIT;
use crate::cursor::{Cursor, check_size};
use crate::drafts::{Draft, Drawing, NODES};
use crate::faults::{ScriptError, ScriptRefusal};
use crate::kinds::{Kind, read_kind};
use crate::records::Source;
use builders::PairsBuilder;
use queues::records::Node;
use queues::tokens::Token;
use rules::{GrammarRule, PlantRule, RuleType};
use std::alloc::Global;

/// How many tokens the buffer has that a script is built into.
pub const TOKENS: usize = 1024;

// The kind that the first line names.
fn first_kind(lines: &mut Cursor<'_>) -> Result<Kind, ScriptRefusal>
    requires line { lines.old.line ≡ 1 }
    requires size { lines.old.size ≡ length lines.old.rest.now }
    ensures { MatchResult result
        (λ kind. started lines.old.rest.now ≡ outcome_of (kind_codes kind) blank lines.new)
        (λ f. started lines.old.rest.now ≡ refused f) }
{
    let line = lines.take_line().ok_or(lines.missing())?;
    read_kind(line.bytes).ok_or(line.refusal(0))
}

// Does what the lines say, up to `show`: the number of its line.
fn gather<R: RuleType>(
    drawing: &mut Drawing<'_, R>,
    lines: &mut Cursor<'_>,
) -> Result<u32, ScriptError>
    ensures outcome { MatchResult result
        (λ n. outcome_of R.CODES drawing.old lines.old ≡ shown_of n drawing.new lines.new)
        (Fails (outcome_of R.CODES drawing.old lines.old)) }
    ensures line { IfOk result (λ n. lines.new.line ≡ n + 1) }
{
    while let Some(line) = lines.take_line() {
        let command = line.command()?;
        if command.ends() {
            return Ok(line.number);
        }
        drawing.step(command, line.number)?;
    }
    Err(lines.missing().into())
}

// Builds what the lines have made, at the line of `show`: how many tokens there are.
fn build<R: RuleType>(
    builder: PairsBuilder,
    source: &Source<'_, '_, R>,
    line: u32,
    buffer: &mut [Token<R>],
) -> Result<usize, ScriptRefusal>
    requires { length buffer.old ≡ token_limit }
    ensures { let nodes = coding R.coded (nodes_of source.now.nodes.now) in
        BuiltAt line
        (drawn source.now.text.now source.now.labels.now nodes builder.depth builder.to_tag) result }
{
    builder
        .build(source.nodes, source.text, source.labels, buffer)
        .map_err(|refused| ScriptRefusal {
            line,
            fault: refused.into(),
        })
}

// Builds at `show`, tests that nothing follows, and makes the record.
fn finish<R: RuleType>(
    heap: Global,
    drawing: Drawing<'_, R>,
    buffer: &mut [Token<R>],
    number: u32,
    lines: Cursor<'_>,
) -> Result<Vec<u8>, ScriptError>
    requires room { length buffer.old ≡ token_limit }
    requires line { lines.line ≡ number + 1 }
    ensures { MatchResult result
        (λ v. Settles (shown_of number drawing.entry lines.entry) (Ok v.items))
        (Fails (shown_of number drawing.entry lines.entry)) }
{
    let Drawing { draft, nodes } = drawing;
    let Draft {
        text,
        labels,
        builder,
    } = draft;
    let source = Source {
        text: &text,
        labels: &labels,
        nodes: &nodes,
    };
    let tokens = build(builder, &source, number, buffer)?;
    lines.check_end()?;
    Ok(source.record(heap, tokens)?)
}

// The record that the lines after the first one make.
fn run<R: RuleType>(
    heap: Global,
    slots: &mut [Node<R>],
    buffer: &mut [Token<R>],
    mut lines: Cursor<'_>,
) -> Result<Vec<u8>, ScriptError>
    requires { length buffer.old ≡ token_limit }
    ensures { MatchResult result
        (λ v. Settles (outcome_of R.CODES blank lines.entry) (Ok v.items))
        (Fails (outcome_of R.CODES blank lines.entry)) }
{
    let mut drawing = Drawing::new(heap, slots);
    let number = gather(&mut drawing, &mut lines)?;
    finish(heap, drawing, buffer, number, lines)
}

// What the slots past the list's end hold, which are never looked at.
fn unused<R: Default>() -> Node<R> {
    Node {
        rule: R::default(),
        start: 0,
        end: 0,
        depth: 0,
        tag: None,
    }
}

// The same of the plant's rules. Arrays of each kind of rules, and no memory taken: a script is not refused for want of any
// before its lines are looked at.
fn run_plant(heap: Global, lines: Cursor<'_>) -> Result<Vec<u8>, ScriptError>
    ensures { MatchResult result
        (λ v. Settles (outcome_of (kind_codes Plant) blank lines.entry) (Ok v.items))
        (Fails (outcome_of (kind_codes Plant) blank lines.entry)) }
{
    let mut slots = [unused::<PlantRule>(); NODES];
    let mut buffer = [Token::Start {
        link: 0,
        position: 0,
    }; TOKENS];
    run(heap, &mut slots, &mut buffer, lines)
}

// The same of the grammars' rules.
fn run_grammar(heap: Global, lines: Cursor<'_>) -> Result<Vec<u8>, ScriptError>
    ensures { MatchResult result
        (λ v. Settles (outcome_of (kind_codes Grammar) blank lines.entry) (Ok v.items))
        (Fails (outcome_of (kind_codes Grammar) blank lines.entry)) }
{
    let mut slots = [unused::<GrammarRule>(); NODES];
    let mut buffer = [Token::Start {
        link: 0,
        position: 0,
    }; TOKENS];
    run(heap, &mut slots, &mut buffer, lines)
}

/// The bytes of the record that a script makes. Refused are a script over the limit, before all else; then the first line that
/// is another than the rules have there or is missing, or that the builder refuses, and at `show` what cannot be built.
pub fn read(heap: Global, script: &[u8]) -> Result<Vec<u8>, ScriptError>
    ensures meaning { MatchResult result
        (λ v. Means script.now (Ok v.items))
        (Fails (outcome script.now)) }
    ensures laws { ScriptLaws script.now }
{
    check_size(script)?;
    let mut lines = Cursor::new(script);
    match first_kind(&mut lines)? {
        Kind::Plant => run_plant(heap, lines),
        Kind::Grammar => run_grammar(heap, lines),
    }
}
