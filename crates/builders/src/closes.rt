//! Going one up.
ghost use Rattle.std.specs.Prelude.{◌≡◌, ◌-◌, OnErr, is_ok, if◌then◌else◌};
ghost use Rattle.text.specs.Refusing.{unless};
ghost use Rattle.queues.specs.Records.{depths};
ghost use Rattle.builders.specs.Calls.{close_fault, last_at};

use crate::adds::check_lawful;
use crate::builder::PairsBuilder;
use crate::faults::BuilderFault;
use queues::nodes::Nodes;

// The last node of a depth. What lies after it lies inside it, so that all closes together pass each node at most once a depth.
fn last_at<R: Copy, N: Nodes<R>>(nodes: &N, depth: u32) -> Option<usize>
    ensures { result ≡ last_at depth (depths (N.list nodes.now)) }
{
    nodes.iter().rposition(|node| node.depth == depth)
}

impl PairsBuilder {
    /// Goes one up; the last node of that depth becomes the pair to tag.
    /// Refused, and nothing has changed, at depth 0, where the list is not lawful, and where it has no node of that depth.
    pub fn close<R: Copy, N: Nodes<R>>(&mut self, nodes: &N) -> Result<(), BuilderFault>
        ensures fault { result ≡ unless (close_fault self.old.depth (N.list nodes.now)) tt }
        ensures depth { self.new.depth
            ≡ (if is_ok result then self.old.depth - 1 else self.old.depth) }
        ensures tags { self.new.to_tag
            ≡ (if is_ok result then last_at (self.old.depth - 1) (depths (N.list nodes.now))
            else self.old.to_tag) }
        ensures refused { OnErr result (self.new ≡ self.old) }
    {
        let count = nodes.len() as u64;
        let depth = self
            .depth
            .checked_sub(1)
            .ok_or(BuilderFault::Outermost { count })?;
        check_lawful(nodes)?;
        let node = last_at(nodes, u32::from(depth)).ok_or(BuilderFault::Missing { count })?;
        self.depth = depth;
        self.to_tag = Some(node);
        Ok(())
    }
}
