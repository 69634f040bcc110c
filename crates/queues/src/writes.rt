//! Writing the queue of the forest that nodes list.
ghost use Rattle.std.specs.Prelude.{◌≡◌, ◌*◌, ◌≤◌, List, ◌++◌, length, None, is_ok, OnOk, OnErr, IfOk};
ghost use Rattle.std.specs.List.{slice_get};
ghost use Rattle.queues.specs.Forests.{Forest, Row, written, tokens};
ghost use Rattle.queues.specs.Lawful.{unlawful};
ghost use Rattle.queues.specs.Links.{Links};
ghost use Rattle.queues.specs.Records.{Carried, depths, queue};
ghost use Rattle.queues.specs.Writes.{of_depth, writable, Ahead, Ready, Writes, Wrote, One};

use crate::nodes::{NODE_LIMIT, Nodes};
use crate::records::Node;
use crate::tokens::Token;

/// That no queue can be written.
#[derive(Clone, Copy, PartialEq, Eq, Debug, Hash)]
pub struct Unwritable;

// Which node comes next, and where its tokens go.
#[derive(Clone, Copy)]
struct Cursor {
    node: usize,
    token: usize,
}

// The node at k, if it has this depth.
fn at_depth<R: Copy, N: Nodes<R>>(nodes: &N, k: usize, depth: u32) -> Option<Node<R>>
    ensures { result ≡ of_depth (slice_get (N.list nodes.now) k) depth }
{
    nodes.node(k).filter(|node| node.depth == depth)
}

// Writes the siblings of this depth from the cursor on, each with what lies inside it. An index into the list and one into
// the queue go along, and no forest is made: the queue is written in place.
fn write_siblings<R: Copy, N: Nodes<R>>(
    nodes: &N,
    depth: u32,
    from: Cursor,
    out: &mut [Token<R>],
) -> Cursor
    requires { Ready (N.list nodes.now) from.node from.token depth (length out.old) }
    ensures { (f : Forest (Carried R)) (rest : List (Row (Carried R)))
        → Ahead (N.list nodes.now) from.node depth f rest
        → Wrote f from.node from.token result.node result.token out.old out.new }
{
    let mut at = from;
    while let Some(node) = at_depth(nodes, at.node, depth) {
        let inner = write_siblings(
            nodes,
            depth + 1,
            Cursor {
                node: at.node + 1,
                token: at.token + 1,
            },
            out,
        );
        out[at.token] = Token::Start {
            link: inner.token as u32,
            position: node.start,
        };
        out[inner.token] = Token::End {
            link: at.token as u32,
            position: node.end,
            rule: node.rule,
            tag: node.tag,
        };
        at = Cursor {
            node: inner.node,
            token: inner.token + 1,
        };
    }
    at
}

// Writes the queue of the forest that lawful nodes list.
fn write_lawful<R: Copy, N: Nodes<R>>(nodes: &N, out: &mut [Token<R>])
    requires lawful { unlawful (depths (N.list nodes.now)) ≡ None }
    requires few { length (N.list nodes.now) ≤ 65536 }
    requires room { 2 * length (N.list nodes.now) ≤ length out.old }
    ensures one { One (N.list nodes.now) }
    ensures linked { Links (Carried R) }
    ensures writes { Writes (N.list nodes.now) out.old out.new }
{
    write_siblings(nodes, 0, Cursor { node: 0, token: 0 }, out);
}

/// Writes the queue of the forest that the nodes list, and answers how many tokens it has. What lies behind it stays.
/// Refused, and nothing is written, where the nodes are not lawful, are over 65,536, or need more tokens than there is room for.
pub fn write_queue<R: Copy, N: Nodes<R>>(
    nodes: &N,
    out: &mut [Token<R>],
) -> Result<usize, Unwritable>
    ensures test { is_ok result ≡ writable (N.list nodes.now) (length out.old) }
    ensures count { IfOk result (λ n. n ≡ 2 * length (N.list nodes.now)) }
    ensures one { OnOk result (One (N.list nodes.now)) }
    ensures queue { OnOk result (Writes (N.list nodes.now) out.old out.new) }
    ensures refused { OnErr result (out.new ≡ out.old) }
{
    let count = nodes.len();
    if nodes.first_unlawful().is_some() || count > NODE_LIMIT || out.len() < 2 * count {
        return Err(Unwritable);
    }
    write_lawful(nodes, out);
    Ok(2 * count)
}
