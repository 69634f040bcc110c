//! Building the queue.
ghost use Rattle.std.specs.Prelude.{◌≡◌, length, IfOk, IfErr, OnOk, OnErr};
ghost use Rattle.queues.specs.Writes.{One, Writes};
ghost use Rattle.builders.specs.Laws.{BuildLaws};
ghost use Rattle.builders.specs.Queues.{Counts, fault_of};
ghost use Rattle.builders.specs.Builds.{Judged};

use crate::builder::PairsBuilder;
use crate::builds::RefusedBuild;
use crate::checks::Building;
use queues::nodes::Nodes;
use queues::tokens::Token;
use queues::writes::write_queue;
use std::marker::PhantomData;

impl PairsBuilder {
    /// Takes the builder, checks everything, and writes for each pair its Start, its inner pairs and its End, linked to each
    /// other. Answers how many tokens there are; past them the buffer stays. Refused, it hands the builder back, and nothing
    /// has changed.
    #[tactic(auto, using(crate::proofs::Judging::two_tokens))]
    pub fn build<R: Copy, N: Nodes<R>>(
        self,
        nodes: &N,
        text: &[u8],
        labels: &[u8],
        buffer: &mut [Token<R>],
    ) -> Result<usize, RefusedBuild>
        ensures answer { Judged self.depth (N.list nodes.now) text.now labels.now (length buffer.old)
            (fault_of result) }
        ensures one { OnOk result (One (N.list nodes.now)) }
        ensures count { IfOk result (Counts (N.list nodes.now)) }
        ensures queue { OnOk result (Writes (N.list nodes.now) buffer.old buffer.new) }
        ensures refused { OnErr result (buffer.new ≡ buffer.old) }
        ensures back { IfErr result (λ refused. refused.builder ≡ self) }
        ensures laws { BuildLaws R }
    {
        let building = Building {
            depth: self.depth,
            nodes,
            text,
            labels,
            of: PhantomData,
        };
        let count = building.check(buffer.len()).map_err(|fault| RefusedBuild {
            builder: self,
            fault,
        })?;
        write_queue(nodes, buffer).unwrap();
        Ok(count)
    }
}
