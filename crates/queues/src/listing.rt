//! Going over any list of nodes.
ghost use Rattle.std.specs.Prelude.{◌≡◌, IfSome, Some, length};
ghost use Rattle.std.specs.Iterator.{UpTo, YieldsFirst, YieldsLast, item_count};
ghost use Rattle.std.specs.Iterator.SizeHint.{IsWithinCount};

use crate::nodes::Nodes;
use crate::records::Node;
use std::iter::FusedIterator;
use std::marker::{Model, PhantomData};
use std::ops::Range;

/// The nodes of a list in their order, seen as those that are left.
// By their indices: a list may keep its nodes apart, and then lends no slice of them.
#[derive(Drop)]
pub struct Listing<'n, R: Copy, N: Nodes<R>> {
    pub(crate) nodes: &'n N,
    pub(crate) left: Range<usize>,
    pub(crate) of: PhantomData<R>,
}

impl<'n, R: Copy, N: Nodes<R>> Model for Listing<'n, R, N> {
    ghost use Rattle.std.specs.Prelude.{◌≤◌, List, length};
    ghost use Rattle.std.specs.List.{slice_range};
    ghost use Rattle.queues.specs.declared.records.Node.{Node};

    ghost Value = { List (Node R) };

    ghost view = { λ it. slice_range (N.list it.nodes.now) it.left.start it.left.end };

    ghost invariant = { λ it.
        (it.left.start ≤ it.left.end) × (it.left.end ≤ length (N.list it.nodes.now)) };
}

impl<'n, R: Copy, N: Nodes<R>> Iterator for Listing<'n, R, N> {
    type Item = Node<R>;

    ghost next_gives = { YieldsFirst (λ rest. rest) };

    ghost remaining = { item_count (λ rest. rest) };

    #[tactic(auto, using(crate::proofs::Ranges::range_first))]
    fn next(&mut self) -> Option<Node<R>> {
        let i = self.left.next()?;
        self.nodes.node(i)
    }

    // Exact, which the trait does not ask: its two clauses alone would let `(0, None)` pass.
    fn size_hint(&self) -> (usize, Option<usize>)
        ensures lower { IsWithinCount result.0 (item_count (λ rest. rest) self.now) }
        ensures upper { IfSome result.1 (UpTo (item_count (λ rest. rest) self.now)) }
        ensures exact { result ≡ (length self.now, Some (length self.now)) }
    {
        let len = self.len();
        (len, Some(len))
    }
}

impl<'n, R: Copy, N: Nodes<R>> DoubleEndedIterator for Listing<'n, R, N> {
    ghost next_back_gives = { YieldsLast (λ rest. rest) };

    #[tactic(auto, using(crate::proofs::Ranges::range_last))]
    fn next_back(&mut self) -> Option<Node<R>> {
        let i = self.left.next_back()?;
        self.nodes.node(i)
    }
}

impl<'n, R: Copy, N: Nodes<R>> ExactSizeIterator for Listing<'n, R, N> {
    fn len(&self) -> usize {
        self.left.len()
    }
}

impl<'n, R: Copy, N: Nodes<R>> FusedIterator for Listing<'n, R, N> {}
