//! The tokens of a queue.

/// A tag: a part of the label text, by its place and its length.
#[derive(Clone, Copy, PartialEq, Eq, Debug, Hash)]
pub struct Tag {
    pub place: u32,
    pub length: u32,
}

/// Where a pair starts, or where it ends; the two link to each other by their indices in the queue.
// Indices and no tree on the heap: the queue is one slice that the caller lends.
#[derive(Clone, Copy, PartialEq, Eq, Debug, Hash)]
pub enum Token<R> {
    Start {
        link: u32,
        position: u32,
    },
    End {
        link: u32,
        position: u32,
        rule: R,
        tag: Option<Tag>,
    },
}
