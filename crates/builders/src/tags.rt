//! Tagging a pair.
ghost use Rattle.std.specs.Prelude.{◌≡◌, is_ok, if◌then◌else◌};
ghost use Rattle.text.specs.Refusing.{unless};
ghost use Rattle.queues.specs.Lists.{tagged_at};
ghost use Rattle.builders.specs.Calls.{tag_fault};

use crate::adds::check_lawful;
use crate::builder::PairsBuilder;
use crate::checks::TAG_LIMIT;
use crate::faults::BuilderFault;
use queues::nodes::Nodes;
use queues::tokens::Tag;

impl PairsBuilder {
    /// Sets or replaces the tag of the pair to tag.
    /// Refused, and nothing has changed, where there is none, where the tag has over 255 bytes, where the list is not lawful,
    /// and where it lacks the pair. Whether the tag lies within the labels is seen when the queue is built.
    pub fn tag<R: Copy, N: Nodes<R>>(&self, nodes: &mut N, tag: Tag) -> Result<(), BuilderFault>
        ensures fault { result ≡ unless (tag_fault self.now.to_tag tag (N.list nodes.old)) tt }
        ensures nodes { N.list nodes.new
            ≡ (if is_ok result then tagged_at self.now.to_tag tag (N.list nodes.old)
            else N.list nodes.old) }
    {
        let count = nodes.len() as u64;
        let node = self.to_tag.ok_or(BuilderFault::Untagged { count })?;
        if tag.length > TAG_LIMIT {
            return Err(BuilderFault::LongTag { place: tag.place });
        }
        check_lawful(nodes)?;
        if node >= nodes.len() {
            return Err(BuilderFault::Missing { count });
        }
        nodes.set_tag(node, tag);
        Ok(())
    }
}
