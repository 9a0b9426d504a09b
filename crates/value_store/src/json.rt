//! The values of a node as JSON.

ghost use Rattle.std.specs.Prelude.{◌≡◌, IfOk, map, string_bytes};
ghost use Rattle.serde_json.specs.View.{view};
ghost use Rattle.zw_base.specs.PropertyWord.{property_word};
ghost use Rattle.value_store.specs.ValueText.{held_data, node_data, value_data, values_text};

use crate::stored::Held;
use serde_json::{Value, json};
use std::alloc::{AllocError, Global};
use zw_base::{Bytes, NoMemory, NodeId, Property};

/// The text of a node and these properties.
pub(crate) fn print(alloc: Global, node: NodeId, held: &[Held]) -> Result<Bytes, NoMemory>
    ensures { IfOk result (λ text. text ≡ values_text node held.now) }
{
    let text = node_value(alloc, node, held)?.to_string(alloc)?;
    Bytes::from_slice(alloc, text.as_bytes())
}

fn node_value(alloc: Global, node: NodeId, held: &[Held]) -> Result<Value, AllocError>
    ensures { IfOk result (λ value. view value ≡ node_data node held.now) }
{
    let values = Value::from(held_values(alloc, held)?);
    json!(in alloc; {"node": node.number(), "values": values})
}

fn held_values(alloc: Global, held: &[Held]) -> Result<Vec<Value>, AllocError>
    ensures { IfOk result (λ values. map view values.items ≡ map held_data held.now) }
{
    let mut values = Vec::with_capacity(alloc, held.len())?;
    for one in held {
        let value = held_value(alloc, *one)?;
        values.push(value)?;
    }
    Ok(values)
}

fn held_value(alloc: Global, held: Held) -> Result<Value, AllocError>
    ensures { IfOk result (λ value. view value ≡ held_data held) }
{
    let confirmed = value_or_null(held.stored.confirmed);
    let heard = value_or_null(held.stored.heard);
    let property = show_property(alloc, held.property)?;
    json!(in alloc; {"confirmed": confirmed, "heard": heard, "property": property.as_str()})
}

fn value_or_null(value: Option<u32>) -> Value
    ensures { view result ≡ value_data value }
{
    match value {
        Some(value) => Value::from(value),
        None => Value::Null,
    }
}

fn show_property(alloc: Global, property: Property) -> Result<String, AllocError>
    ensures { IfOk result (λ text. string_bytes text ≡ property_word property) }
{
    let mut text = String::new(alloc);
    property.write(&mut text)?;
    Ok(text)
}
