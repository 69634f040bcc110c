//! What a caller may say of a builder's depth, which it cannot read: proved here by the builder's type alone.
ghost use Rattle.std.specs.Prelude.{◌≡◌, ◌≤◌, ◌<◌, OnOk, OnErr};

use builders::PairsBuilder;
use builders::faults::BuilderFault;
use queues::nodes::Nodes;

/// Every builder's depth is at most 255.
pub fn is_low(builder: &PairsBuilder) -> bool
    ensures { builder.now.depth ≤ 255 }
{
    *builder == PairsBuilder::new()
}

/// A pair that is opened lay below depth 255, and a refused `open` leaves the builder.
pub fn open_below<N: Nodes<u8>>(
    builder: &mut PairsBuilder,
    nodes: &mut N,
) -> Result<(), BuilderFault>
    ensures below { OnOk result (builder.old.depth < 255) }
    ensures stays { OnErr result (builder.new ≡ builder.old) }
{
    builder.open(nodes, 1, 0, 0)
}
