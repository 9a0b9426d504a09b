//! Bodies are read from left to right.

mod notices;
mod requests;
mod responses;

pub use notices::read_notice;
pub use requests::read_request;
pub use responses::read_response;
