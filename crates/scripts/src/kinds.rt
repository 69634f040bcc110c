//! The first line of a script: which kind of tree it builds.
ghost use Rattle.std.specs.Prelude.{◌≡◌};
ghost use Rattle.scripts.specs.Kinds.{kind_of};

/// What a script builds.
#[derive(Clone, Copy, Debug, PartialEq, Eq, Hash)]
pub enum Kind {
    Plant,
    Grammar,
}

/// The kind that a line names: `plant` or `grammar`, exactly. None for any other line.
pub fn read_kind(line: &[u8]) -> Option<Kind>
    ensures { result ≡ kind_of line.now }
{
    match line {
        b"plant" => Some(Kind::Plant),
        b"grammar" => Some(Kind::Grammar),
        _ => None,
    }
}
