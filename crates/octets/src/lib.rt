//! The octets of documents, in pages, and the document of a job.
//!
//! [`Pages`] collects octets that come in chunks and never moves them again. [`Octets`] may have several
//! owners. A [`Document`] is octets with their format. All pages but the last are full. Each call that takes
//! memory may be refused, and changes nothing then. The crate has no jobs, and reads octets from no source.
#![tactic(auto)]

mod document;
mod octets;
mod page;
mod paged;
mod pages;

pub use document::Document;
pub use octets::Octets;
pub use pages::Pages;
