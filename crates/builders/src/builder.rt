//! The builder itself.
ghost use Rattle.std.specs.Prelude.{◌≡◌, ◌≤◌, None};

/// How deep the next pair lies, and which node is the pair to tag.
#[derive(PartialEq, Eq, Debug, Drop)]
pub struct PairsBuilder {
    pub(crate) depth: u8,
    // an index: the list is handed in at each call, and may be another
    pub(crate) to_tag: Option<usize>,
    // what the width says, for callers: a clause of theirs knows the width only of what their code reads
    ghost low: { depth ≤ 255 },
}

impl PairsBuilder {
    /// A builder at depth 0, with nothing to tag.
    pub fn new() -> PairsBuilder
        ensures depth { result.depth ≡ 0 }
        ensures tags { result.to_tag ≡ None }
    {
        PairsBuilder {
            depth: 0,
            to_tag: None,
        }
    }
}
