//! IPP messages and their bytes (RFC 8010, section 3).
//!
//! `decode` reads the head of a message in place, without memory. Its contract states exactly when bytes begin
//! with a head, the message of the head, and else the first fault of the bytes. `encode` appends the one
//! spelling of a message. The crate doesn't know the meaning of attributes and operations: a value is a tag
//! and bytes, or a collection of members.
//!
//! Tests: `unit_tests`.
#![tactic(auto)]

mod decoder;
mod element;
mod fault;
mod head;
mod law;
mod member_view;
mod message;
mod owning;
mod place;
mod shape;
mod spelling;
mod stage;
mod tag;
mod typed;
mod value;
mod view;
mod walk;

pub use decoder::Decoder;
pub use fault::{CodecFault, DecodeError, EncodeFault};
pub use head::{decode, head_length, view_of};
pub use law::{fault_stays, one_first_fault, one_spelling};
pub use member_view::{MemberView, Members};
pub use message::{Attribute, Group, Message};
pub use spelling::{encode, encode_after};
pub use stage::{Fed, Reached, Stage};
pub use tag::{GroupTag, ValueTag};
pub use value::{Member, Value};
pub use view::{
    AttributeView, Attributes, GroupView, Groups, MessageView, ValueView, Values, Version,
};
