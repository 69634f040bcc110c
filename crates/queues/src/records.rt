//! One node.
use crate::tokens::Tag;

/// A pair before it is written: its rule, its span, how deep it lies, and its tag.
#[derive(Clone, Copy, PartialEq, Eq, Debug, Hash)]
pub struct Node<R> {
    pub rule: R,
    pub start: u32,
    pub end: u32,
    pub depth: u32,
    pub tag: Option<Tag>,
}
