//! A lent slice as a list of nodes.
ghost use Rattle.std.specs.Prelude.{◌≡◌, ◌≤◌, min, not, ◌&&◌, [], ◌∷◌, ◌++◌, length, take, is_ok, nat_le, if◌then◌else◌};
ghost use Rattle.queues.specs.Lawful.{fault_after, most_after, unlawful};
ghost use Rattle.queues.specs.Records.{depths};
ghost use Rattle.queues.specs.Slices.{nodes_of};

use crate::nodes::{DEPTH_LIMIT, Full, Nodes};
use crate::records::Node;
use crate::slices::SliceNodes;
use crate::tokens::Tag;

impl<'n, R: Copy> SliceNodes<'n, R> {
    /// The list of the first `len` nodes of the slice, whatever they are; of all where there are fewer.
    pub fn over(nodes: &'n mut [Node<R>], len: usize) -> SliceNodes<'n, R>
        ensures buffer { result.nodes.now ≡ nodes.old }
        ensures length { result.len ≡ min (length nodes.old) len }
    {
        let len = nodes.len().min(len);
        let fault = scan(&nodes[..len]);
        SliceNodes { nodes, len, fault }
    }

    /// The nodes, side by side.
    pub fn as_slice(&self) -> &[Node<R>]
        ensures { result.now ≡ nodes_of self.now }
    {
        &self.nodes[..self.len]
    }
}

// The first unlawful node.
#[tactic(auto, using(crate::proofs::Kept::depths_more))]
fn scan<R: Copy>(nodes: &[Node<R>]) -> Option<usize>
    ensures { result ≡ unlawful (depths nodes.now) }
{
    let mut before = None;
    for (i, node) in nodes.iter().enumerate() {
        if !allowed(before, node.depth) {
            return Some(i);
        }
        before = Some(node.depth);
    }
    None
}

impl<'n, R: Copy> Nodes<R> for SliceNodes<'n, R> {
    ghost list = { nodes_of };

    ghost full = { λ s. nat_le (length s.nodes.now) s.len };

    fn len(&self) -> usize {
        self.len
    }

    fn node(&self, i: usize) -> Option<Node<R>> {
        self.as_slice().get(i).copied()
    }

    fn is_full(&self) -> bool {
        self.nodes.len() <= self.len
    }

    fn push(&mut self, last: &Node<R>) -> Result<(), Full> {
        if self.is_full() {
            return Err(Full);
        }
        let at = self.len;
        let before = self.as_slice().last().map(|node| node.depth);
        let fault = first_fault(self.fault, before, at, last.depth);
        self.nodes[at] = *last;
        (self.len, self.fault) = (at + 1, fault);
        Ok(())
    }

    #[tactic(auto, using(crate::proofs::Kept::retag_front, crate::proofs::Kept::retag_past))]
    fn set_tag(&mut self, i: usize, tag: Tag) {
        if i < self.len {
            self.nodes[i].tag = Some(tag);
        }
    }

    fn first_unlawful(&self) -> Option<usize> {
        self.fault
    }
}

// Whether a node of this depth may come next: at most one deeper than the one before, and the first at depth 0.
fn allowed(before: Option<u32>, depth: u32) -> bool
    ensures { result ≡ (nat_le depth (most_after before) && nat_le depth 255) }
{
    let most = before.map_or(0, |d| d.saturating_add(1));
    depth <= most && depth <= DEPTH_LIMIT
}

// The first unlawful node once one of this depth comes at `at`, where `fault` is the first of those before.
fn first_fault(fault: Option<usize>, before: Option<u32>, at: usize, depth: u32) -> Option<usize>
    ensures { result ≡ fault_after fault (most_after before) at depth }
{
    fault.or((!allowed(before, depth)).then_some(at))
}
