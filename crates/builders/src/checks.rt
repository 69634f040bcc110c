//! What is looked at before a queue is written.
ghost use Rattle.std.specs.Prelude.{◌≡◌, ◌*◌, length, Some, IfOk};
ghost use Rattle.text.specs.Refusing.{unless};
ghost use Rattle.builders.specs.Builds.{Judged, node_fault_from, rest_fault, tag_fault, tag_fits};

use crate::builds::{BuildFault, NodeFault};
use queues::nodes::{NODE_LIMIT, Nodes};
use queues::tokens::Tag;
use spans::check_span;
use std::marker::PhantomData;
use text::well_formed;

/// The most bytes that a label text may have.
pub const LABEL_LIMIT: usize = 65536;

/// The most bytes that a tag may have.
pub const TAG_LIMIT: u32 = 255;

// A tag has at most 255 bytes, which lie within the labels.
fn tag_fits(labels: usize, tag: Tag) -> bool
    ensures { result ≡ tag_fits labels (Some tag) }
{
    tag.length <= TAG_LIMIT && tag.place as usize + tag.length as usize <= labels
}

// The first tag that does not fit is refused.
fn check_tags<R: Copy, N: Nodes<R>>(nodes: &N, labels: usize) -> Result<(), BuildFault>
    ensures { result ≡ unless (tag_fault labels (N.list nodes.now)) tt }
{
    for node in nodes.iter() {
        if let Some(tag) = node.tag {
            if !tag_fits(labels, tag) {
                return Err(BuildFault::Tag { place: tag.place });
            }
        }
    }
    Ok(())
}

// The first unsound span is refused, with its node.
fn check_spans<R: Copy, N: Nodes<R>>(nodes: &N, text: &[u8]) -> Result<(), NodeFault>
    ensures { result ≡ unless (node_fault_from text.now 0 (N.list nodes.now)) tt }
{
    for (i, node) in nodes.iter().enumerate() {
        check_span(text, node.start, node.end).map_err(|fault| NodeFault {
            node: i as u64,
            fault,
        })?;
    }
    Ok(())
}

// What a queue is built of: the builder's depth, the nodes, the text, and the labels.
#[derive(Drop)]
pub(crate) struct Building<'b, R: Copy, N: Nodes<R>> {
    pub(crate) depth: u8,
    pub(crate) nodes: &'b N,
    pub(crate) text: &'b [u8],
    pub(crate) labels: &'b [u8],
    pub(crate) of: PhantomData<R>,
}

impl<'b, R: Copy, N: Nodes<R>> Building<'b, R, N> {
    // Everything but the text's own test, topmost refusal first; else how many tokens there are.
    fn check_rest(&self, room: usize) -> Result<usize, BuildFault>
        ensures { let nodes = N.list self.now.nodes.now in
            result
            ≡ unless (rest_fault self.now.depth nodes self.now.text.now self.now.labels.now room)
            (2 * length nodes) }
    {
        if self.labels.len() > LABEL_LIMIT {
            return Err(BuildFault::Labels {
                length: self.labels.len() as u64,
            });
        }
        let count = self.nodes.len();
        if count > NODE_LIMIT {
            return Err(BuildFault::Many {
                count: count as u64,
            });
        }
        check_tags(self.nodes, self.labels.len())?;
        if self.depth > 0 {
            return Err(BuildFault::Open {
                depth: u32::from(self.depth),
            });
        }
        if let Some(node) = self.nodes.first_unlawful() {
            return Err(BuildFault::Unlawful { node: node as u64 });
        }
        check_spans(self.nodes, self.text)?;
        if room < 2 * count {
            return Err(BuildFault::Short {
                needed: 2 * count as u64,
            });
        }
        Ok(2 * count)
    }

    // How many tokens the queue has, where it can be written; the text's own refusal comes first.
    pub(crate) fn check(&self, room: usize) -> Result<usize, BuildFault>
        ensures answer { Judged self.now.depth (N.list self.now.nodes.now) self.now.text.now
            self.now.labels.now room result }
        ensures count { IfOk result (λ n. n ≡ 2 * length (N.list self.now.nodes.now)) }
    {
        well_formed(self.text)?;
        self.check_rest(room)
    }
}
