//! The requests of an HTTP client (RFC 9110, RFC 9112), read with their bodies from a stream that comes in
//! segments of any length, and the heads of the replies.
//!
//! An [`HttpReader`] gives exactly the exchanges of the whole stream that it was fed, in order, up to the
//! last exchange. The last exchange is a request that is refused, a request that closes the connection, or a
//! request whose body is too short for an IPP message. The crate reads nothing else of the bodies, and
//! replies to no request by itself.
//!
//! Examples: the traces in `crates/play_examples/data`.
#![tactic(auto)]

mod after;
mod awaited;
mod chunk;
mod fields;
mod head;
mod item;
mod law;
mod reader;
mod refusal;
mod reply;
mod section;
mod words;

pub use item::HttpItem;
pub use law::{
    exchanges_in_order, given_first, one_parse, one_prefix, some_parse, written_is_parsed,
};
pub use reader::HttpReader;
pub use refusal::HttpRejection;
pub use reply::{continue_head, write_refusal_head, write_reply_head};
