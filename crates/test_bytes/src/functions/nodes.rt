//! The nodes of a mask.

use chip_functions::NodeMask;
use std::test::Fail;
use zw_base::{NodeId, read_node};

/// The nodes of these numbers.
fn mask(numbers: &[u8]) -> NodeMask {
    let mut mask = NodeMask::new();
    for number in numbers {
        if let Some(node) = read_node(*number) {
            mask.insert(node);
        }
    }
    mask
}

/// Whether the nodes are those of the numbers.
fn are_nodes(nodes: &[NodeId], numbers: &[u8]) -> bool {
    let mut same = nodes.len() == numbers.len();
    for (node, number) in nodes.iter().zip(numbers) {
        same = node.number() == *number && same;
    }
    same
}

#[test]
fn nodes_in_order(rt: HostRuntime) -> Result<(), Fail> {
    let mask = mask(&[232, 1, 10]);
    let listed = mask.nodes(rt.alloc())?;
    assert!(rt; are_nodes(listed.as_slice(), &[1, 10, 232]));
    Ok(())
}
