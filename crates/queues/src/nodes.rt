//! The nodes that a builder lists, and lists of them.
ghost use Rattle.std.specs.Prelude.{◌≡◌, ◌<◌, ◌^◌, Bool, not, List, [], ◌∷◌, ◌++◌, length, is_ok, if◌then◌else◌};
ghost use Rattle.std.specs.List.{slice_get};
ghost use Rattle.queues.specs.Lists.{retagged};
ghost use Rattle.queues.specs.Lawful.{unlawful};
ghost use Rattle.queues.specs.Records.{depths};
ghost use Rattle.queues.specs.declared.records.Node.{Node};

use crate::listing::Listing;
use crate::records::Node;
use crate::tokens::Tag;
use std::marker::PhantomData;

/// The most nodes that a list may have for its queue to be written.
pub const NODE_LIMIT: usize = 65536;

/// The greatest depth of a node.
pub const DEPTH_LIMIT: u32 = 255;

/// That a list has no room for another node.
#[derive(Clone, Copy, PartialEq, Eq, Debug, Hash)]
pub struct Full;

/// A list of nodes that a builder adds to. All that code may know of one is the list that it means.
pub trait Nodes<R: Copy> {
    ghost list: { Self → List (Node R) };

    // no node can be added
    ghost full: { Self → Bool };

    /// How many nodes there are.
    fn len(&self) -> usize
        ensures { result ≡ length (list self.now) };

    /// The node at an index, or none from the length on.
    fn node(&self, i: usize) -> Option<Node<R>>
        ensures { result ≡ slice_get (list self.now) i };

    /// Whether no node can be added.
    fn is_full(&self) -> bool
        ensures { result ≡ full self.now };

    /// Adds a node at the end. Refused, and nothing has changed, where the list is full.
    // By reference: an `impl` with a lifetime would have to repeat these clauses for a node by value.
    fn push(&mut self, last: &Node<R>) -> Result<(), Full>
        ensures room { is_ok result ≡ not (full self.old) }
        ensures after { list self.new
            ≡ (if is_ok result then list self.old ++ last.now ∷ [] else list self.old) };

    /// Sets or replaces the tag of the node at an index. Nothing changes from the length on.
    fn set_tag(&mut self, i: usize, tag: Tag)
        ensures { list self.new ≡ retagged (list self.old) i tag };

    /// The first node whose depth the depths before it do not allow, if there is one.
    fn first_unlawful(&self) -> Option<usize>
        ensures { result ≡ unlawful (depths (list self.now)) };

    /// Goes over the nodes in their order.
    final fn iter(&self) -> Listing<'_, R, Self>
    where
        Self: Sized,
        ensures nodes { result ≡ list self.now }
        ensures fits { length (list self.now) < 2 ^ 64 }
    {
        Listing {
            nodes: self,
            left: 0..self.len(),
            of: PhantomData,
        }
    }
}
