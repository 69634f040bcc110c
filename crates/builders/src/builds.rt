//! Why a queue is not built.
ghost use Rattle.std.specs.Prelude.{◌≡◌};
ghost use Rattle.builders.specs.Faults.{build_refusal};
ghost use Rattle.builders.specs.declared.builds.BuildFault.TheVariants.{Text, Span};

use crate::builder::PairsBuilder;
use spans::faults::UnsoundSpan;
use text::faults::TextFault;
use text::refusals::Refusal;

/// An unsound span, whole, with the node that has it.
#[derive(Clone, Copy, PartialEq, Eq, Debug)]
pub struct NodeFault {
    pub node: u64,
    pub fault: UnsoundSpan,
}

/// What building refuses.
#[derive(Clone, Copy, PartialEq, Eq, Debug)]
pub enum BuildFault {
    /// The text is over the limit or not well-formed.
    Text(TextFault),
    /// The labels have over 65,536 bytes.
    Labels { length: u64 },
    /// There are over 65,536 nodes.
    Many { count: u64 },
    /// The first tag that lies outside the labels or has over 255 bytes.
    Tag { place: u32 },
    /// Something is still open.
    Open { depth: u32 },
    /// The list is not lawful: this is the first node whose depth those before it do not allow.
    Unlawful { node: u64 },
    /// The first unsound span.
    Span(NodeFault),
    /// The buffer is too short.
    Short { needed: u64 },
}

impl From<BuildFault> for Refusal {
    ghost from_gives = { λ e r. r ≡ build_refusal e };

    /// Numbers 1 and 2 as the text's, 3 at the labels' length, 4 at the node count, 8 at the tag's place, 9 at the depth,
    /// 10 and 11 at the node, 12 at the number of tokens needed.
    fn from(e: BuildFault) -> Refusal {
        let (number, place) = match e {
            BuildFault::Text(fault) => return Refusal::from(fault),
            BuildFault::Labels { length } => (3, length),
            BuildFault::Many { count } => (4, count),
            BuildFault::Tag { place } => (8, u64::from(place)),
            BuildFault::Open { depth } => (9, u64::from(depth)),
            BuildFault::Unlawful { node } => (10, node),
            BuildFault::Span(fault) => (11, fault.node),
            BuildFault::Short { needed } => (12, needed),
        };
        Refusal { number, place }
    }
}

impl From<TextFault> for BuildFault {
    ghost from_gives = { λ e r. r ≡ Text e };

    fn from(e: TextFault) -> BuildFault {
        BuildFault::Text(e)
    }
}

impl From<NodeFault> for BuildFault {
    ghost from_gives = { λ e r. r ≡ Span e };

    fn from(e: NodeFault) -> BuildFault {
        BuildFault::Span(e)
    }
}

/// A refused build: why, and the builder handed back as it was.
#[derive(PartialEq, Eq, Debug, Drop)]
pub struct RefusedBuild {
    pub builder: PairsBuilder,
    pub fault: BuildFault,
}
