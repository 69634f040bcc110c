//! The builder's calls, one refusal after the other, at its edge and one before it.
use builders::PairsBuilder;
use builders::faults::BuilderFault;
use queues::nodes::Nodes;
use queues::records::Node;
use queues::slices::SliceNodes;
use queues::tokens::Tag;
use std::test::Fail;

const EMPTY: Node<u8> = Node {
    rule: 9,
    start: 0,
    end: 0,
    depth: 7,
    tag: None,
};

// the depth and the tag of a node, or none
fn seen(list: &SliceNodes<'_, u8>, i: usize) -> Option<(u32, Option<Tag>)> {
    list.node(i).map(|node| (node.depth, node.tag))
}

#[test]
fn pairs_are_added_at_the_builders_depth(rt: HostRuntime) {
    let tag = Tag {
        place: 3,
        length: 2,
    };
    let mut nodes = [EMPTY; 8];
    let mut list = SliceNodes::over(&mut nodes, 0);
    let mut builder = PairsBuilder::new();
    assert_eq!(rt;
        builder.tag(&mut list, tag),
        Err(BuilderFault::Untagged { count: 0 })
    );
    assert_eq!(rt; builder.open(&mut list, 1, 0, 3), Ok(()));
    assert_eq!(rt;
        builder.tag(&mut list, tag),
        Err(BuilderFault::Untagged { count: 1 })
    );
    assert_eq!(rt; builder.rule(&mut list, 2, 0, 1), Ok(()));
    assert_eq!(rt; builder.rule(&mut list, 2, 2, 3), Ok(()));
    assert_eq!(rt; builder.close(&list), Ok(()));
    // after a close the tag goes to the closed pair, not to the last inner one
    assert_eq!(rt; builder.tag(&mut list, tag), Ok(()));
    assert_eq!(rt; seen(&list, 0), Some((0, Some(tag))));
    assert_eq!(rt; seen(&list, 1), Some((1, None)));
    assert_eq!(rt; seen(&list, 2), Some((1, None)));
    assert_eq!(rt; seen(&list, 3), None);
    assert_eq!(rt;
        builder.close(&list),
        Err(BuilderFault::Outermost { count: 3 })
    );
}

#[test]
fn a_tag_is_set_or_replaced(rt: HostRuntime) {
    let mut nodes = [EMPTY; 2];
    let mut list = SliceNodes::over(&mut nodes, 0);
    let mut builder = PairsBuilder::new();
    assert_eq!(rt; builder.rule(&mut list, 1, 0, 0), Ok(()));
    for length in 0..=256u32 {
        let tag = Tag { place: 5, length };
        let refused = builder.tag(&mut list, tag);
        if length <= 255 {
            assert_eq!(rt; refused, Ok(()));
            assert_eq!(rt; seen(&list, 0), Some((0, Some(tag))));
        } else {
            assert_eq!(rt; refused, Err(BuilderFault::LongTag { place: 5 }));
            assert_eq!(rt;
                seen(&list, 0),
                Some((
                    0,
                    Some(Tag {
                        place: 5,
                        length: 255,
                    }),
                ))
            );
        }
    }
}

#[test]
fn a_full_list_takes_no_more(rt: HostRuntime) {
    let mut nodes = [EMPTY; 2];
    let mut list = SliceNodes::over(&mut nodes, 0);
    let mut builder = PairsBuilder::new();
    assert_eq!(rt; builder.rule(&mut list, 1, 0, 0), Ok(()));
    assert_eq!(rt; builder.open(&mut list, 1, 0, 0), Ok(()));
    assert_eq!(rt;
        builder.rule(&mut list, 1, 0, 0),
        Err(BuilderFault::Full { count: 2 })
    );
    assert_eq!(rt;
        builder.open(&mut list, 1, 0, 0),
        Err(BuilderFault::Full { count: 2 })
    );
    assert_eq!(rt; list.len(), 2);
}

#[test]
fn nothing_opens_at_depth_255(rt: HostRuntime) -> Result<(), Fail> {
    let mut nodes = Vec::new(rt.alloc());
    nodes.resize(300, EMPTY)?;
    let mut list = SliceNodes::over(nodes.as_mut_slice(), 0);
    let mut builder = PairsBuilder::new();
    for _ in 0..255u32 {
        assert_eq!(rt; builder.open(&mut list, 1, 0, 0), Ok(()));
    }
    assert_eq!(rt;
        builder.open(&mut list, 1, 0, 0),
        Err(BuilderFault::Deep { depth: 255 })
    );
    // a pair at depth 255 may still be added
    assert_eq!(rt; builder.rule(&mut list, 1, 0, 0), Ok(()));
    assert_eq!(rt; seen(&list, 255), Some((255, None)));
    Ok(())
}

#[test]
fn any_list_may_be_handed_in(rt: HostRuntime) {
    // two nodes of depth 7: the first is unlawful
    let mut nodes = [EMPTY; 4];
    let mut list = SliceNodes::over(&mut nodes, 2);
    let mut builder = PairsBuilder::new();
    assert_eq!(rt;
        builder.rule(&mut list, 1, 0, 0),
        Err(BuilderFault::Unlawful { node: 0 })
    );
    assert_eq!(rt;
        builder.open(&mut list, 1, 0, 0),
        Err(BuilderFault::Unlawful { node: 0 })
    );
    let mut others = [EMPTY; 4];
    let mut other = SliceNodes::over(&mut others, 0);
    assert_eq!(rt; builder.open(&mut other, 1, 0, 0), Ok(()));
    assert_eq!(rt;
        builder.close(&list),
        Err(BuilderFault::Unlawful { node: 0 })
    );
    // the list of another builder lacks the node to close
    let mut bare = [EMPTY; 1];
    let none = SliceNodes::over(&mut bare, 0);
    assert_eq!(rt;
        builder.close(&none),
        Err(BuilderFault::Missing { count: 0 })
    );
    assert_eq!(rt; builder.close(&other), Ok(()));
    assert_eq!(rt;
        builder.tag(
            &mut list,
            Tag {
                place: 0,
                length: 0,
            },
        ),
        Err(BuilderFault::Unlawful { node: 0 })
    );
}
