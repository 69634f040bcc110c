//! The record that a script prints.
ghost use Rattle.std.specs.Prelude.{◌≡◌, ◌++◌, length, take, drop, IfOk, Some, OnOk};
ghost use Rattle.queues.specs.Slices.{nodes_of};
ghost use Rattle.scripts.specs.Records.{node_line, node_lines, place_of, record_of, row_start, tag_bytes, tally_line};
ghost use Rattle.scripts.specs.Steps.{coded_node, coding};

use crate::parts::onward;
use lines::Position;
use queues::records::Node;
use queues::slices::SliceNodes;
use queues::tokens::Tag;
use rules::RuleType;
use std::alloc::{AllocError, Global};
use std::fmt;

// How many pairs and tokens there are.
#[derive(Clone, Copy, Debug, PartialEq, Eq, Hash)]
struct Tally {
    pairs: usize,
    tokens: usize,
}

impl fmt::Display for Tally {
    ghost output = { λ t. Some (tally_line t) };

    fn fmt<W: fmt::Write>(&self, f: &mut fmt::Formatter<W>) -> fmt::Result {
        write!(f, "{} {}\n", self.pairs, self.tokens)
    }
}

// The numbers of a pair's line.
#[derive(Clone, Copy, Debug, PartialEq, Eq, Hash)]
struct Row {
    depth: u32,
    code: u32,
    start: u32,
    end: u32,
    line: usize,
    column: usize,
}

impl fmt::Display for Row {
    ghost output = { λ r. Some (row_start r) };

    fn fmt<W: fmt::Write>(&self, f: &mut fmt::Formatter<W>) -> fmt::Result {
        write!(
            f,
            "{} {} {} {} {} {} ",
            self.depth, self.code, self.start, self.end, self.line, self.column
        )
    }
}

/// What a record is made of: the text, the labels, and the nodes of the pairs.
#[derive(Clone, Copy)]
pub(crate) struct Source<'d, 'n, R> {
    pub(crate) text: &'d [u8],
    pub(crate) labels: &'d [u8],
    pub(crate) nodes: &'d SliceNodes<'n, R>,
}

impl<'d, 'n, R: RuleType> Source<'d, 'n, R> {
    // The line and the column of an offset; 0 and 0 where no character begins there.
    fn place(&self, at: u32) -> (usize, usize)
        ensures { result ≡ place_of self.now.text.now at }
    {
        Position::new(self.text, at).map_or((0, 0), |position| position.line_col())
    }

    // The bytes of a tag.
    fn label(&self, tag: Tag) -> &'d [u8]
        ensures { result.now ≡ take tag.length (drop tag.place self.now.labels.now) }
    {
        let rest = onward(self.labels, tag.place as usize);
        rest.get(..tag.length as usize).unwrap_or(rest)
    }

    // The end of a pair's line: `-` where it has no tag, else `=` and the tag.
    fn write_tag(&self, out: &mut Vec<u8>, tag: Option<Tag>) -> Result<(), AllocError>
        ensures { OnOk result (out.new.items ≡ out.old.items ++ tag_bytes self.now.labels.now tag) }
    {
        let Some(tag) = tag else {
            return out.extend_from_slice(b"-\n");
        };
        out.extend_from_slice(b"=")?;
        out.extend_from_slice(self.label(tag))?;
        out.extend_from_slice(b"\n")
    }

    // A pair's line.
    fn write_node(&self, out: &mut Vec<u8>, node: &Node<R>) -> Result<(), AllocError>
        ensures { OnOk result (out.new.items ≡ out.old.items
            ++ node_line self.now.text.now self.now.labels.now (coded_node R.coded node.now)) }
    {
        let (line, column) = self.place(node.start);
        let row = Row {
            depth: node.depth,
            code: node.rule.code(),
            start: node.start,
            end: node.end,
            line,
            column,
        };
        let numbers = row.to_string(*out.allocator())?;
        out.extend_from_slice(numbers.as_bytes())?;
        self.write_tag(out, node.tag)
    }

    // The lines of all pairs, in the list's order.
    fn write_nodes(&self, out: &mut Vec<u8>) -> Result<(), AllocError>
        ensures { OnOk result (out.new.items ≡ out.old.items
            ++ node_lines self.now.text.now self.now.labels.now
            (coding R.coded (nodes_of self.now.nodes.now))) }
    {
        for node in self.nodes.as_slice() {
            self.write_node(out, node)?;
        }
        Ok(())
    }

    /// The record: a line with the numbers of pairs and of tokens, and a line for each pair.
    pub(crate) fn record(&self, heap: Global, tokens: usize) -> Result<Vec<u8>, AllocError>
        ensures { IfOk result (λ v. v.items
            ≡ record_of self.now.text.now self.now.labels.now
            (coding R.coded (nodes_of self.now.nodes.now)) tokens) }
    {
        let tally = Tally {
            pairs: self.nodes.as_slice().len(),
            tokens,
        };
        let mut out = tally.to_string(heap)?.into_bytes();
        self.write_nodes(&mut out)?;
        Ok(out)
    }
}
