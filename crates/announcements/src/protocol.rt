//! The protocols over which a printer takes jobs.
ghost use Rattle.std.specs.Prelude.{◌≡◌, IfOk};
ghost use Rattle.announcements.specs.Records.{kind_of, priority_of, resource_of};

use base_types::Text;
use std::alloc::{AllocError, Global};

/// A protocol for printing.
#[derive(Clone, Copy)]
pub(crate) enum Protocol {
    /// RFC 8011.
    Ipp,
    /// RFC 1179.
    Lpd,
}

impl Protocol {
    /// The service type of the protocol (RFC 6763, section 7).
    pub(crate) fn kind(self) -> &'static str
        ensures { result.now ≡ kind_of self }
    {
        match self {
            Protocol::Ipp => "_ipp._tcp",
            Protocol::Lpd => "_printer._tcp",
        }
    }

    /// The priority of the protocol, from 0 to 99: clients prefer the least number.
    pub(crate) fn priority(self) -> &'static str
        ensures { result.now ≡ priority_of self }
    {
        match self {
            Protocol::Ipp => "20",
            Protocol::Lpd => "50",
        }
    }

    /// The name of a printer in the protocol: the path of its URI without the first `/`, or its queue. The
    /// only error is out of memory.
    pub(crate) fn resource(self, alloc: Global, name: &Text) -> Result<Vec<u8>, AllocError>
        ensures { IfOk result (λ resource. resource.items ≡ resource_of self name.now) }
    {
        let mut resource = Vec::new(alloc);
        if self == Protocol::Ipp {
            resource.extend_from_slice(b"printers/")?;
        }
        resource.extend_from_slice(name.as_bytes())?;
        Ok(resource)
    }
}
