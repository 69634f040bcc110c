//! Adding pairs.
ghost use Rattle.std.specs.Prelude.{◌≡◌, ◌+◌, false, length, Some, None, OnErr, is_ok, if◌then◌else◌};
ghost use Rattle.text.specs.Refusing.{unless};
ghost use Rattle.builders.specs.Calls.{append_fault, full_fault, grown, open_fault, unlawful_fault};

use crate::builder::PairsBuilder;
use crate::faults::BuilderFault;
use queues::nodes::{DEPTH_LIMIT, NODE_LIMIT, Nodes};
use queues::records::Node;

// Refuses a list to which no node can be added.
fn check_room<R: Copy, N: Nodes<R>>(nodes: &N) -> Result<(), BuilderFault>
    ensures { result ≡ unless (full_fault (N.full nodes.now) (N.list nodes.now)) tt }
{
    let count = nodes.len();
    if nodes.is_full() || count >= NODE_LIMIT {
        return Err(BuilderFault::Full {
            count: count as u64,
        });
    }
    Ok(())
}

// Refuses a list that is not lawful.
pub(crate) fn check_lawful<R: Copy, N: Nodes<R>>(nodes: &N) -> Result<(), BuilderFault>
    ensures { result ≡ unless (unlawful_fault (N.list nodes.now)) tt }
{
    if let Some(node) = nodes.first_unlawful() {
        return Err(BuilderFault::Unlawful { node: node as u64 });
    }
    Ok(())
}

impl PairsBuilder {
    /// What `rule` would refuse of this list, whatever the pair.
    pub fn check_rule<R: Copy, N: Nodes<R>>(&self, nodes: &N) -> Result<(), BuilderFault>
        ensures { result ≡ unless (append_fault (N.full nodes.now) (N.list nodes.now)) tt }
    {
        check_room(nodes).and_then(|()| check_lawful(nodes))
    }

    /// What `open` would refuse of this list, whatever the pair.
    pub fn check_open<R: Copy, N: Nodes<R>>(&self, nodes: &N) -> Result<(), BuilderFault>
        ensures { result
            ≡ unless (open_fault (N.full nodes.now) self.now.depth (N.list nodes.now)) tt }
    {
        check_room(nodes)?;
        if u32::from(self.depth) == DEPTH_LIMIT {
            return Err(BuilderFault::Deep { depth: DEPTH_LIMIT });
        }
        check_lawful(nodes)
    }

    // Adds a pair at the builder's depth, where there is room.
    // A rule and two offsets, as a caller has them: a struct of the three would be made for each call, and be no plainer.
    fn add<R: Copy, N: Nodes<R>>(&self, nodes: &mut N, rule: R, start: u32, end: u32)
        requires { N.full nodes.old ≡ false }
        ensures { N.list nodes.new ≡ grown (N.list nodes.old) rule start end self.now.depth }
    {
        let node = Node {
            rule,
            start,
            end,
            depth: u32::from(self.depth),
            tag: None,
        };
        nodes.push(&node).unwrap();
    }

    /// Adds a pair at the builder's depth, which becomes the pair to tag.
    /// Refused, and nothing has changed, where the list is full or has 65,536 nodes, and where it is not lawful.
    pub fn rule<R: Copy, N: Nodes<R>>(
        &mut self,
        nodes: &mut N,
        rule: R,
        start: u32,
        end: u32,
    ) -> Result<(), BuilderFault>
        ensures fault { result ≡ unless (append_fault (N.full nodes.old) (N.list nodes.old)) tt }
        ensures nodes { N.list nodes.new
            ≡ (if is_ok result then grown (N.list nodes.old) rule start end self.old.depth
            else N.list nodes.old) }
        ensures depth { self.new.depth ≡ self.old.depth }
        ensures tags { self.new.to_tag
            ≡ (if is_ok result then Some (length (N.list nodes.old)) else self.old.to_tag) }
        ensures refused { OnErr result (self.new ≡ self.old) }
    {
        self.check_rule(nodes)?;
        let at = nodes.len();
        self.add(nodes, rule, start, end);
        self.to_tag = Some(at);
        Ok(())
    }

    /// Adds a pair at the builder's depth and goes one deeper, with nothing to tag: what is added next lies inside it.
    /// Refused, and nothing has changed, where the list is full or has 65,536 nodes, at depth 255, and where the list is not lawful.
    pub fn open<R: Copy, N: Nodes<R>>(
        &mut self,
        nodes: &mut N,
        rule: R,
        start: u32,
        end: u32,
    ) -> Result<(), BuilderFault>
        ensures fault { result
            ≡ unless (open_fault (N.full nodes.old) self.old.depth (N.list nodes.old)) tt }
        ensures nodes { N.list nodes.new
            ≡ (if is_ok result then grown (N.list nodes.old) rule start end self.old.depth
            else N.list nodes.old) }
        ensures depth { self.new.depth
            ≡ (if is_ok result then self.old.depth + 1 else self.old.depth) }
        ensures tags { self.new.to_tag ≡ (if is_ok result then None else self.old.to_tag) }
        ensures refused { OnErr result (self.new ≡ self.old) }
    {
        self.check_open(nodes)?;
        self.add(nodes, rule, start, end);
        self.depth += 1;
        self.to_tag = None;
        Ok(())
    }
}
