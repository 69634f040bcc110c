//! A list of nodes in a slice that the caller lends.
ghost use Rattle.std.specs.Prelude.{◌≡◌, ◌≤◌, length, take};
ghost use Rattle.queues.specs.Lawful.{unlawful};
ghost use Rattle.queues.specs.Records.{depths};

use crate::records::Node;

/// The nodes at the front of a slice; those past them are no part of the list.
// The caller lends the memory, so this is a slice with a length. What lies past the length is no part of the list, so
// equality is not derived.
#[derive(Drop)]
pub struct SliceNodes<'n, R> {
    pub(crate) nodes: &'n mut [Node<R>],
    pub(crate) len: usize,
    // kept at each change, so that no call has to look through the list
    pub(crate) fault: Option<usize>,
    ghost within: { len ≤ length nodes.now },
    ghost known: { fault ≡ unlawful (depths (take len nodes.now)) },
}
