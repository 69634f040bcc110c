//! Queues that are built, and refusals of builds.
use builders::PairsBuilder;
use builders::builds::{BuildFault, NodeFault};
use queues::records::Node;
use queues::slices::SliceNodes;
use queues::tokens::{Tag, Token};
use spans::faults::{SpanCause, UnsoundSpan};
use std::test::Fail;
use text::faults::TextFault;

const BARE: Token<u8> = Token::Start {
    link: 77,
    position: 77,
};

const fn node(rule: u8, start: u32, end: u32, depth: u32) -> Node<u8> {
    Node {
        rule,
        start,
        end,
        depth,
        tag: None,
    }
}

// the fault of a build of these nodes at depth 0, or none
fn fault(
    nodes: &mut [Node<u8>],
    text: &[u8],
    labels: &[u8],
    buffer: &mut [Token<u8>],
) -> Option<BuildFault> {
    let count = nodes.len();
    let list = SliceNodes::over(nodes, count);
    PairsBuilder::new()
        .build(&list, text, labels, buffer)
        .err()
        .map(|refused| refused.fault)
}

#[test]
fn a_sum_and_its_two_numbers(rt: HostRuntime) {
    let tag = Tag {
        place: 0,
        length: 3,
    };
    let mut nodes = [node(0, 0, 3, 0), node(1, 0, 1, 1), node(1, 2, 3, 1)];
    nodes[1].tag = Some(tag);
    let mut buffer = [BARE; 8];
    assert_eq!(rt; fault(&mut nodes, b"1+2", b"lhs", &mut buffer), None);
    let expected = [
        Token::Start {
            link: 5,
            position: 0,
        },
        Token::Start {
            link: 2,
            position: 0,
        },
        Token::End {
            link: 1,
            position: 1,
            rule: 1,
            tag: Some(tag),
        },
        Token::Start {
            link: 4,
            position: 2,
        },
        Token::End {
            link: 3,
            position: 3,
            rule: 1,
            tag: None,
        },
        Token::End {
            link: 0,
            position: 3,
            rule: 0,
            tag: None,
        },
        BARE,
        BARE,
    ];
    assert_eq!(rt; buffer, expected);
}

#[test]
fn refusals_come_topmost_first(rt: HostRuntime) {
    let mut nodes = [node(0, 0, 1, 0), node(0, 1, 0, 2)];
    let mut buffer = [BARE; 3];
    // everything is wrong; each is mended in turn
    nodes[0].tag = Some(Tag {
        place: 6,
        length: 1,
    });
    assert_eq!(rt;
        fault(&mut nodes, &[0x61, 0xFF], b"labels", &mut buffer),
        Some(BuildFault::Text(TextFault::Malformed { at: 1 }))
    );
    assert_eq!(rt;
        fault(&mut nodes, b"a", b"labels", &mut buffer),
        Some(BuildFault::Tag { place: 6 })
    );
    nodes[0].tag = Some(Tag {
        place: 6,
        length: 0,
    });
    assert_eq!(rt;
        fault(&mut nodes, b"a", b"labels", &mut buffer),
        Some(BuildFault::Unlawful { node: 1 })
    );
    nodes[1].depth = 1;
    let unsound = UnsoundSpan {
        start: 1,
        cause: SpanCause::StartAfterEnd,
    };
    assert_eq!(rt;
        fault(&mut nodes, b"a", b"labels", &mut buffer),
        Some(BuildFault::Span(NodeFault {
            node: 1,
            fault: unsound,
        }))
    );
    nodes[1].end = 1;
    assert_eq!(rt;
        fault(&mut nodes, b"a", b"labels", &mut buffer),
        Some(BuildFault::Short { needed: 4 })
    );
    assert_eq!(rt; buffer, [BARE; 3]);
}

#[test]
fn an_open_builder_comes_back(rt: HostRuntime) -> Result<(), Fail> {
    let mut nodes = [node(0, 0, 0, 0); 4];
    let mut list = SliceNodes::over(&mut nodes, 0);
    let mut buffer = [BARE; 4];
    let mut builder = PairsBuilder::new();
    assert!(rt; builder.open(&mut list, 1, 0, 0).is_ok());
    let Err(refused) = builder.build(&list, b"", b"", &mut buffer) else {
        return Err(Fail::new("built with a pair open"));
    };
    assert_eq!(rt; refused.fault, BuildFault::Open { depth: 1 });
    // what comes back goes on
    let mut builder = refused.builder;
    assert!(rt; builder.close(&list).is_ok());
    assert_eq!(rt; builder.build(&list, b"", b"", &mut buffer).ok(), Some(2));
    Ok(())
}

#[test]
fn labels_have_a_limit(rt: HostRuntime) -> Result<(), Fail> {
    let mut labels = Vec::new(rt.alloc());
    labels.resize(65_536, b'x')?;
    let mut none = [node(0, 0, 0, 0); 0];
    let mut buffer = [BARE; 1];
    assert_eq!(rt; fault(&mut none, b"", labels.as_slice(), &mut buffer), None);
    labels.push(b'x')?;
    assert_eq!(rt;
        fault(&mut none, b"", labels.as_slice(), &mut buffer),
        Some(BuildFault::Labels { length: 65_537 })
    );
    Ok(())
}

#[test]
fn a_forest_has_at_most_65536_pairs(rt: HostRuntime) -> Result<(), Fail> {
    let mut nodes = Vec::new(rt.alloc());
    nodes.resize(65_536, node(0, 0, 0, 0))?;
    let mut buffer = Vec::new(rt.alloc());
    buffer.resize(131_074, BARE)?;
    assert_eq!(rt;
        fault(nodes.as_mut_slice(), b"", b"", buffer.as_mut_slice()),
        None
    );
    nodes.push(node(0, 0, 0, 0))?;
    assert_eq!(rt;
        fault(nodes.as_mut_slice(), b"", b"", buffer.as_mut_slice()),
        Some(BuildFault::Many { count: 65_537 })
    );
    Ok(())
}
