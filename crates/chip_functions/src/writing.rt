//! Values are written in their one written form.

ghost use Rattle.std.specs.Prelude.{◌≡◌, ◌++◌, IfOk};

mod notices;
mod requests;
mod responses;

pub use notices::write_notice;
pub use requests::write_request;
pub use responses::write_response;
use std::alloc::Global;
use zw_base::{Bytes, NoMemory};

/// These bytes, and more after them.
fn joined(alloc: Global, prefix: &[u8], rest: &[u8]) -> Result<Bytes, NoMemory>
    ensures { IfOk result (λ body. body ≡ prefix.now ++ rest.now) }
{
    let mut body = Bytes::from_slice(alloc, prefix)?;
    body.extend(rest)?;
    Ok(body)
}

/// These bytes between others.
fn between(alloc: Global, prefix: &[u8], middle: &[u8], last: &[u8]) -> Result<Bytes, NoMemory>
    ensures { IfOk result (λ body. body ≡ prefix.now ++ (middle.now ++ last.now)) }
{
    let rest = joined(alloc, middle, last)?;
    joined(alloc, prefix, rest.as_slice())
}
