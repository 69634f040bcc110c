//! What a script's lines make, one after the other.
ghost use Rattle.std.specs.Prelude.{◌≡◌, ◌≤◌, [], None, MatchResult};
ghost use Rattle.scripts.specs.Commands.{adds, closes, opens, order_of, tags};
ghost use Rattle.scripts.specs.declared.faults.ScriptFault.TheVariants.{NoRule};
ghost use Rattle.scripts.specs.declared.problems.Problem.TheVariants.{NoRoom};
ghost use Rattle.scripts.specs.Outcomes.{blank};
ghost use Rattle.scripts.specs.Steps.{Roomy, Steps, StepsAt, stepped};

use crate::commands::Command;
use crate::faults::{ScriptError, ScriptFault};
use crate::numbers::Pair;
use crate::problems::Problem;
use builders::PairsBuilder;
use builders::faults::BuilderFault;
use queues::nodes::Nodes;
use queues::records::Node;
use queues::slices::SliceNodes;
use queues::tokens::Tag;
use rules::RuleType;
use std::alloc::Global;
use std::marker::Model;

/// The most nodes that a script may have.
pub const NODES: usize = 512;

/// What the lines so far have made beside the nodes: the text, the label bytes of the tags, and the builder.
// No derived equality: it is never looked at but as a part of a drawing.
#[derive(Drop)]
pub struct Draft {
    pub(crate) text: Vec<u8>,
    pub(crate) labels: Vec<u8>,
    pub(crate) builder: PairsBuilder,
}

impl Draft {
    /// No text, no labels, and a builder at depth 0.
    pub fn new(heap: Global) -> Draft
        ensures text { result.text.items ≡ [] }
        ensures labels { result.labels.items ≡ [] }
        ensures depth { result.builder.depth ≡ 0 }
        ensures tags { result.builder.to_tag ≡ None }
    {
        Draft {
            text: Vec::new(heap),
            labels: Vec::new(heap),
            builder: PairsBuilder::new(),
        }
    }
}

/// A draft with its nodes: all that the lines so far have made.
// No derived equality: the nodes have none.
#[derive(Drop)]
pub struct Drawing<'n, R: RuleType> {
    pub(crate) draft: Draft,
    pub(crate) nodes: SliceNodes<'n, R>,
}

impl<'n, R: RuleType> Model for Drawing<'n, R> {
    ghost use Rattle.std.specs.Prelude.{vec_items};
    ghost use Rattle.queues.specs.Slices.{nodes_of};
    ghost use Rattle.scripts.specs.Steps.{Drawn, drawn, coding};

    ghost Value = { Drawn };

    ghost view = { λ d.
        drawn (vec_items d.draft.text) (vec_items d.draft.labels)
        (coding R.coded (nodes_of d.nodes)) d.draft.builder.depth d.draft.builder.to_tag };
}

// Refuses a list of 512 nodes; a list that takes no node before that has too little room.
fn check_count<R: RuleType, N: Nodes<R>>(nodes: &N) -> Result<(), Problem>
    ensures { Roomy (N.full nodes.now) (N.list nodes.now) result }
{
    let count = nodes.len();
    if count >= NODES {
        let fault = BuilderFault::Full {
            count: count as u64,
        };
        return Err(fault.into());
    }
    if nodes.is_full() {
        return Err(Problem::NoRoom);
    }
    Ok(())
}

// The rule that has a code.
fn rule_of<R: RuleType>(code: u32) -> Result<R, ScriptFault>
    ensures { MatchResult result
        (λ rule. R.coded rule ≡ code)
        (λ fault. (R.CODES ≤ code) × (fault ≡ NoRule code)) }
{
    R::from_code(code).ok_or(ScriptFault::NoRule { code })
}

// A place or a length in the labels.
fn small(n: usize) -> Result<u32, Problem>
    ensures { MatchResult result (λ x. x ≡ n) (λ p. p ≡ NoRoom) }
{
    u32::try_from(n).map_err(|_| Problem::NoRoom)
}

impl<'n, R: RuleType> Drawing<'n, R> {
    /// A new draft, and no nodes in the slots.
    pub fn new(heap: Global, slots: &'n mut [Node<R>]) -> Drawing<'n, R>
        ensures { result ≡ blank }
    {
        Drawing {
            draft: Draft::new(heap),
            nodes: SliceNodes::over(slots, 0),
        }
    }

    // `rule` and `open` differ in both calls of the builder: one function of the two would be handed both, and no plainer.
    fn rule(&mut self, pair: Pair) -> Result<(), Problem>
        ensures { Steps (stepped R.CODES (adds pair) self.old) self.new result }
    {
        check_count(&self.nodes)?;
        self.draft.builder.check_rule(&self.nodes)?;
        let rule = rule_of(pair.code)?;
        self.draft
            .builder
            .rule(&mut self.nodes, rule, pair.start, pair.end)?;
        Ok(())
    }

    fn open(&mut self, pair: Pair) -> Result<(), Problem>
        ensures { Steps (stepped R.CODES (opens pair) self.old) self.new result }
    {
        check_count(&self.nodes)?;
        self.draft.builder.check_open(&self.nodes)?;
        let rule = rule_of(pair.code)?;
        self.draft
            .builder
            .open(&mut self.nodes, rule, pair.start, pair.end)?;
        Ok(())
    }

    fn close(&mut self) -> Result<(), Problem>
        ensures { Steps (stepped R.CODES closes self.old) self.new result }
    {
        self.draft.builder.close(&self.nodes)?;
        Ok(())
    }

    fn tag(&mut self, bytes: &[u8]) -> Result<(), Problem>
        ensures { Steps (stepped R.CODES (tags bytes.now) self.old) self.new result }
    {
        let tag = Tag {
            place: small(self.draft.labels.len())?,
            length: small(bytes.len())?,
        };
        self.draft.labels.extend_from_slice(bytes)?;
        self.draft.builder.tag(&mut self.nodes, tag)?;
        Ok(())
    }

    // Does what a command says; nothing where it ends the script.
    fn perform(&mut self, command: Command<'_>) -> Result<(), Problem>
        ensures { Steps (stepped R.CODES (order_of command.entry) self.old) self.new result }
    {
        match command {
            Command::Text(bytes) => self.draft.text.extend_from_slice(bytes)?,
            Command::Next => self.draft.text.extend_from_slice(b"\n")?,
            Command::Rule(pair) => self.rule(pair)?,
            Command::Open(pair) => self.open(pair)?,
            Command::Close => self.close()?,
            Command::Tag(bytes) => self.tag(bytes)?,
            Command::Show => (),
        }
        Ok(())
    }

    /// Does what the command of a line says.
    pub(crate) fn step(&mut self, command: Command<'_>, line: u32) -> Result<(), ScriptError>
        ensures { StepsAt line (stepped R.CODES (order_of command.entry) self.old) self.new result }
    {
        self.perform(command).map_err(|problem| problem.at(line))
    }
}
