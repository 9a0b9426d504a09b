//! Responses, as the chip writes them.

ghost use Rattle.std.specs.Prelude.{◌≡◌, ◌<◌, ◌≤◌, ◌^◌, ◌++◌, length, IfOk, OnOk};
ghost use Rattle.std.specs.Int.{w16, to_be_bytes};
ghost use Rattle.serial_frame.specs.declared.frame.Kind.TheVariants.{Response as of_response};
ghost use Rattle.chip_functions.specs.Response.{
  init_data,
  capabilities,
  version,
  memory_id,
  failed_code,
  response_function,
  response_body,
  IsResponse,
  IsResponseBody,
};
ghost use Rattle.chip_functions.specs.Field.{IsNode};
ghost use Rattle.chip_functions.specs.Mask.{AreNodes};

use super::{between, joined};
use crate::function::{
    GET_CAPABILITIES, GET_INIT_DATA, GET_NODE_PROTOCOL_INFO, GET_ROUTING_INFO, GET_VERSION,
    IS_FAILED_NODE, MEMORY_GET_ID, REQUEST_NODE_INFO, SEND_DATA,
};
use crate::mask::MASK_BYTES;
use crate::{NodeMask, Response};
use serial_frame::{Frame, Kind};
use std::alloc::Global;
use zw_base::{Bytes, NoMemory, NodeId};

fn function(value: &Response) -> u8
    ensures { result ≡ response_function value.now }
{
    match value {
        Response::GetInitData { .. } => GET_INIT_DATA,
        Response::GetCapabilities { .. } => GET_CAPABILITIES,
        Response::SendData { .. } => SEND_DATA,
        Response::GetVersion { .. } => GET_VERSION,
        Response::MemoryGetId { .. } => MEMORY_GET_ID,
        Response::GetNodeProtocolInfo { .. } => GET_NODE_PROTOCOL_INFO,
        Response::RequestNodeInfo { .. } => REQUEST_NODE_INFO,
        Response::IsFailedNode { .. } => IS_FAILED_NODE,
        Response::GetRoutingInfo { .. } => GET_ROUTING_INFO,
    }
}

fn init_data(
    alloc: Global,
    version: u8,
    capabilities: u8,
    nodes: &NodeMask,
    chip_type: u8,
    chip_version: u8,
) -> Result<Bytes, NoMemory>
    ensures body { IfOk result (λ body. body ≡ init_data.spell (version, (capabilities, (tt, (nodes.now, (chip_type, chip_version)))))) }
    ensures nodes { OnOk result (AreNodes nodes.now) }
    ensures fits { IfOk result (λ body. length body ≤ 252) }
{
    between(
        alloc,
        &[version, capabilities, MASK_BYTES],
        nodes.as_bytes(),
        &[chip_type, chip_version],
    )
}

fn capabilities(
    alloc: Global,
    versions: [u8; 2],
    manufacturer: u16,
    product_type: u16,
    product: u16,
    functions: &[u8; 32],
) -> Result<Bytes, NoMemory>
    ensures body { IfOk result (λ body. body ≡ versions ++
        (to_be_bytes w16 manufacturer ++ (to_be_bytes w16 product_type ++ (to_be_bytes w16 product ++ functions.now)))) }
    ensures row { OnOk result ((manufacturer < 2 ^ 16) × (product_type < 2 ^ 16) × (product < 2 ^ 16) × (length functions.now ≡ 32)) }
    ensures fits { IfOk result (λ body. length body ≤ 252) }
{
    let last = between(
        alloc,
        &product_type.to_be_bytes(),
        &product.to_be_bytes(),
        functions,
    )?;
    between(
        alloc,
        &versions,
        &manufacturer.to_be_bytes(),
        last.as_slice(),
    )
}

fn body(alloc: Global, value: &Response) -> Result<Bytes, NoMemory>
    ensures body { IfOk result (λ body. body ≡ response_body value.now) }
    ensures fits { IfOk result (λ body. length body ≤ 252) }
    ensures row { OnOk result (IsResponse value.now) }
{
    match value {
        Response::GetInitData {
            version,
            capabilities,
            nodes,
            chip_type,
            chip_version,
        } => init_data(
            alloc,
            *version,
            *capabilities,
            nodes,
            *chip_type,
            *chip_version,
        ),
        Response::GetCapabilities {
            version,
            revision,
            manufacturer,
            product_type,
            product,
            functions,
        } => capabilities(
            alloc,
            [*version, *revision],
            *manufacturer,
            *product_type,
            *product,
            functions,
        ),
        Response::SendData { answer } | Response::RequestNodeInfo { answer } => {
            Bytes::from_slice(alloc, &[*answer])
        }
        Response::GetVersion { text, library_type } => version(alloc, text, *library_type),
        Response::MemoryGetId { home_id, node } => memory_id(alloc, *home_id, *node),
        Response::GetNodeProtocolInfo {
            capability,
            security,
            reserved,
            basic,
            generic,
            specific,
        } => Bytes::from_slice(
            alloc,
            &[
                *capability,
                *security,
                *reserved,
                *basic,
                *generic,
                *specific,
            ],
        ),
        Response::IsFailedNode { failed } => Bytes::from_slice(alloc, &[failed_code(*failed)]),
        Response::GetRoutingInfo { nodes } => Bytes::from_slice(alloc, nodes.as_bytes()),
    }
}

fn version(alloc: Global, text: &[u8; 12], library_type: u8) -> Result<Bytes, NoMemory>
    ensures body { IfOk result (λ body. body ≡ version.spell (text.now, library_type)) }
    ensures row { OnOk result (length text.now ≡ 12) }
    ensures fits { IfOk result (λ body. length body ≤ 252) }
{
    joined(alloc, text, &[library_type])
}

fn memory_id(alloc: Global, home_id: u32, node: NodeId) -> Result<Bytes, NoMemory>
    ensures body { IfOk result (λ body. body ≡ memory_id.spell (home_id, node)) }
    ensures node { IsNode node }
{
    joined(alloc, &home_id.to_be_bytes(), &[node.number()])
}

fn failed_code(failed: bool) -> u8
    ensures { result ≡ failed_code failed }
{
    if failed { 1 } else { 0 }
}

/// The frame of a response. Every value has a row, and fits a frame.
pub fn write_response(alloc: Global, value: &Response) -> Result<Frame, NoMemory>
    ensures frame { IfOk result (λ frame. frame ≡ record { kind = of_response; func = response_function value.now; body = response_body value.now }) }
    // It is read as that value.
    ensures body { IfOk result (λ frame. IsResponseBody frame.func frame.body value.now) }
{
    Ok(Frame {
        kind: Kind::Response,
        func: function(value),
        body: body(alloc, value)?,
    })
}
