//! Single finishings and their numbers (RFC 8011, section 5.2.6).
ghost use Rattle.std.specs.Prelude.{◌≡◌, IfOk};
ghost use Rattle.printer_objects.specs.Attribute.{enumerated};
ghost use Rattle.printer_objects.specs.Finishing.{finishing_table, finishing_code, has_finishing, with_finishing, each_finishing, finishings_attribute, finishings_supported};

use crate::attribute::{enumerated, enumeration};
use base_types::Finishings;
use ipp_codec::Attribute;
use std::alloc::{AllocError, Global};

/// The number of no finishing.
pub const NO_FINISHING: u32 = 3;

/// A finishing of a job's sheets (RFC 8011, section 5.2.6).
#[derive(Clone, Copy, PartialEq, Eq)]
pub enum Finishing {
    Staple,
    Punch,
    Bind,
}

impl Finishing {
    /// All finishings, by rising number.
    pub(crate) fn all() -> [Finishing; 3]
        ensures { result ≡ finishing_table }
    {
        [Finishing::Staple, Finishing::Punch, Finishing::Bind]
    }

    /// The number of the finishing.
    pub(crate) fn code(self) -> u32
        ensures { result ≡ finishing_code self }
    {
        match self {
            Finishing::Staple => 4,
            Finishing::Punch => 5,
            Finishing::Bind => 7,
        }
    }

    /// Returns whether it is one of the finishings.
    pub fn is_in(self, finishings: Finishings) -> bool
        ensures { result ≡ has_finishing finishings self }
    {
        match self {
            Finishing::Staple => finishings.staple,
            Finishing::Punch => finishings.punch,
            Finishing::Bind => finishings.bind,
        }
    }

    /// The finishings with this finishing added.
    pub fn with(self, finishings: Finishings) -> Finishings
        ensures { result ≡ with_finishing finishings self }
    {
        let mut all = finishings;
        match self {
            Finishing::Staple => all.staple = true,
            Finishing::Punch => all.punch = true,
            Finishing::Bind => all.bind = true,
        }
        all
    }
}

/// Each of the finishings, by rising number. The only error is out of memory.
fn each_finishing(alloc: Global, finishings: Finishings) -> Result<Vec<Finishing>, AllocError>
    ensures { IfOk result (λ each. each.items ≡ each_finishing finishings) }
{
    let mut each = Vec::new(alloc);
    for finishing in Finishing::all() {
        if finishing.is_in(finishings) {
            each.push(finishing)?;
        }
    }
    Ok(each)
}

/// An attribute of the numbers of a job's finishings, or of the number of no finishing.
pub(crate) fn job_finishings(
    alloc: Global,
    name: &'static str,
    needed: Finishings,
) -> Result<Attribute, AllocError>
    ensures { IfOk result (λ a. a ≡ finishings_attribute name.now (each_finishing needed)) }
{
    let each = each_finishing(alloc, needed)?;
    finishings(alloc, name, &each)
}

/// An attribute of the numbers of finishings, or of the number of no finishing.
fn finishings(
    alloc: Global,
    name: &'static str,
    finishings: &[Finishing],
) -> Result<Attribute, AllocError>
    ensures { IfOk result (λ a. a ≡ finishings_attribute name.now finishings.now) }
{
    let [first, others @ ..] = finishings else {
        return Ok(enumerated(alloc, name, NO_FINISHING));
    };
    let mut attribute = enumerated(alloc, name, first.code());
    for finishing in others {
        attribute.push(enumeration(finishing.code()))?;
    }
    Ok(attribute)
}

/// An attribute of the finishings that a job may have: the number of no finishing, and then these.
pub(crate) fn supported_finishings(
    alloc: Global,
    name: &'static str,
    finishings: &[Finishing],
) -> Result<Attribute, AllocError>
    ensures { IfOk result (λ a. a ≡ finishings_supported name.now finishings.now) }
{
    let mut attribute = enumerated(alloc, name, NO_FINISHING);
    for finishing in finishings {
        attribute.push(enumeration(finishing.code()))?;
    }
    Ok(attribute)
}
