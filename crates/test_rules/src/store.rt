//! Values as JSON, written out by hand from the description in docs/STORE.md.

use crate::rows::node;
use std::alloc::Global;
use std::test::Fail;
use value_store::{Store, StoreFault};
use zw_base::{EndPoint, Name, NodeId, Property, read_end, read_node};

fn of_root(name: Name) -> Property {
    Property {
        end: EndPoint::root(),
        name,
    }
}

fn confirm(
    store: &mut Store,
    node: NodeId,
    property: &Property,
    value: u32,
) -> Result<(), StoreFault> {
    store.reserve(node, &[*property])?;
    store.confirm(node, *property, value);
    Ok(())
}

fn hear(
    store: &mut Store,
    node: NodeId,
    property: &Property,
    value: u32,
) -> Result<(), StoreFault> {
    store.hear_report(node, *property, value)
}

/// A member of an association of the last end point.
fn member() -> Option<Property> {
    Some(Property {
        end: read_end(127)?,
        name: Name::Member(3, read_node(232)?),
    })
}

/// Whether a switch is confirmed, and that member is heard.
fn takes_both(store: &mut Store, two: NodeId) -> bool {
    match member() {
        Some(member) => {
            hear(store, two, &member, u32::MAX).is_ok()
                && confirm(store, two, &of_root(Name::Switch), 255).is_ok()
        }
        None => false,
    }
}

/// Whether the values of the node are printed so.
fn is_printed(alloc: Global, store: &Store, two: NodeId, want: &str) -> bool {
    match store.to_json(alloc, two) {
        Ok(text) => text.as_slice() == want.as_bytes(),
        Err(_) => false,
    }
}

const EMPTY: &str = "{\"node\":2,\"values\":[]}";

const BOTH: &str =
    "{\"node\":2,\"values\":[{\"confirmed\":255,\"heard\":null,\"property\":\"0/switch\"},\
     {\"confirmed\":null,\"heard\":4294967295,\"property\":\"127/member:3:232\"}]}";

#[test]
fn values_are_printed(rt: HostRuntime) -> Result<(), Fail> {
    let two = node(2)?;
    let mut store = Store::new(rt.alloc());
    assert!(rt; is_printed(rt.alloc(), &store, two, EMPTY));
    assert!(rt; takes_both(&mut store, two));
    assert!(rt; is_printed(rt.alloc(), &store, two, BOTH));
    Ok(())
}
