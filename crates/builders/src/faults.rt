//! Why a builder's call is refused.
ghost use Rattle.std.specs.Prelude.{◌≡◌};
ghost use Rattle.builders.specs.Faults.{builder_refusal};

use text::refusals::Refusal;

/// What adding to a builder, closing and tagging refuse.
#[derive(Clone, Copy, PartialEq, Eq, Debug, Hash)]
pub enum BuilderFault {
    /// The list has no room for another node, or has 65,536.
    Full { count: u64 },
    /// Nothing can be opened at depth 255.
    Deep { depth: u32 },
    /// Nothing is open.
    Outermost { count: u64 },
    /// There is no pair to tag.
    Untagged { count: u64 },
    /// The tag has over 255 bytes.
    LongTag { place: u32 },
    /// The list is not lawful: this is the first node whose depth those before it do not allow.
    Unlawful { node: u64 },
    /// The list lacks the node that the call speaks of.
    Missing { count: u64 },
}

impl From<BuilderFault> for Refusal {
    ghost from_gives = { λ e r. r ≡ builder_refusal e };

    /// Numbers 4, 6, 7 at the node count, 5 at the depth, 8 at the tag's place, 10 at the node or, where it is missing, the count.
    fn from(e: BuilderFault) -> Refusal {
        let (number, place) = match e {
            BuilderFault::Full { count } => (4, count),
            BuilderFault::Deep { depth } => (5, u64::from(depth)),
            BuilderFault::Outermost { count } => (6, count),
            BuilderFault::Untagged { count } => (7, count),
            BuilderFault::LongTag { place } => (8, u64::from(place)),
            BuilderFault::Unlawful { node } => (10, node),
            BuilderFault::Missing { count } => (10, count),
        };
        Refusal { number, place }
    }
}
