//! The job template attributes that a printer supports (RFC 8011, section 5.2).
//!
//! [`template_of`] and [`medium_of`] return the template of a job, with defaults for attributes that are
//! missing or aren't supported. [`RequestAttributes::make_unsupported`] makes the attributes that the
//! response returns, and [`RequestAttributes::breaks_fidelity`] returns whether the request is refused for them.
//! Each attribute has one value; only `finishings` may have several. The parser of requests drops all but the
//! first of several attributes of a name.
//!
//! Examples: the traces in `crates/play_examples/data`.
#![tactic(auto)]

mod request_attribute;
mod request_attributes;
mod template;
mod template_name;

pub use request_attributes::RequestAttributes;
pub use template::{JobTemplate, medium_of, template_of};
