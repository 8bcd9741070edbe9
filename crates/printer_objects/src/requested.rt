//! The attributes that requested-attributes asks for.
ghost use Rattle.std.specs.Prelude.{◌≡◌, ◌++◌, ◌∷◌, [], IfOk, OnOk, OnErr};
ghost use Rattle.printer_objects.specs.Requested.{asks_for, has_group, is_requested, names_group};

use base_types::Text;
use std::alloc::{AllocError, Global};
use std::marker::Model;

/// The values of requested-attributes, in order. In clauses they are the list of their texts.
#[derive(Drop)]
pub struct Requested {
    names: Vec<Text>,
}

impl Model for Requested {
    ghost use Rattle.std.specs.Prelude.{ℕ, List};

    ghost Value = { List (List ℕ) };

    ghost view = { λ r. r.names.items };
}

impl Requested {
    /// Creates an empty list. The call takes no memory.
    pub fn new(alloc: Global) -> Requested
        ensures { result ≡ [] }
    {
        Requested {
            names: Vec::new(alloc),
        }
    }

    /// Creates an empty list, which has the memory for so many values. The only error is out of memory.
    pub fn with_capacity(alloc: Global, count: usize) -> Result<Requested, AllocError>
        ensures { IfOk result (λ requested. requested ≡ []) }
    {
        let names = Vec::with_capacity(alloc, count)?;
        Ok(Requested { names })
    }

    /// Appends a value. The only error is out of memory, and nothing is changed then.
    pub fn push(&mut self, name: Text) -> Result<(), AllocError>
        ensures ok { OnOk result (self.new ≡ self.old ++ name ∷ []) }
        ensures kept { OnErr result (self.new ≡ self.old) }
    {
        self.names.push(name)?;
        Ok(())
    }

    /// The values.
    pub fn names(&self) -> &[Text]
        ensures { result.now ≡ self.now }
    {
        &self.names
    }
}

/// Returns whether requested-attributes asks for an attribute of a name and a group.
pub(crate) fn is_requested(name: &str, group: &str, requested: &[Text]) -> bool
    ensures { result ≡ is_requested name.now group.now requested.now }
{
    requested.iter().any(|asked| asks_for(asked, name, group))
}

/// Returns whether a value of requested-attributes asks for an attribute: by the attribute's name, by its
/// group's name, or by `all`.
fn asks_for(asked: &Text, name: &str, group: &str) -> bool
    ensures { result ≡ asks_for name.now group.now asked.now }
{
    let asked = asked.as_bytes();
    asked == b"all".as_slice() || asked == group.as_bytes() || asked == name.as_bytes()
}

/// Returns whether requested-attributes asks for a group of a printer's attributes, or for all attributes.
pub(crate) fn has_group(requested: &[Text]) -> bool
    ensures { result ≡ has_group requested.now }
{
    requested.iter().any(names_group)
}

/// Returns whether a value of requested-attributes is the name of a group of a printer's attributes, or `all`.
fn names_group(asked: &Text) -> bool
    ensures { result ≡ names_group asked.now }
{
    let asked = asked.as_bytes();
    asked == b"all".as_slice()
        || asked == b"printer-description".as_slice()
        || asked == b"job-template".as_slice()
}
