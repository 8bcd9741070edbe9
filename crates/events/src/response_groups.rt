//! The groups of a response.
ghost use Rattle.std.specs.Prelude.{◌≡◌, ◌∷◌, [], IfOk};
ghost use Rattle.std.specs.List.{AllByRecursion};
ghost use Rattle.ipp_codec.specs.Grammar.{IsGroup};

use ipp_codec::Group;
use std::alloc::{AllocError, Global};
use std::marker::Model;

/// The groups of a response, in order, each with a spelling. In clauses they are the list of their contents.
#[derive(Drop)]
pub struct ResponseGroups {
    groups: Vec<Group>,
}

impl Model for ResponseGroups {
    ghost use Rattle.std.specs.Prelude.{List};
    ghost use Rattle.std.specs.Coded.{coded_list};
    ghost use Rattle.std.specs.List.{AllByRecursion};
    ghost use Rattle.ipp_codec.specs.Code.{group_code};
    ghost use Rattle.ipp_codec.specs.Grammar.{IsGroup};
    ghost use Rattle.ipp_codec.specs.Message.{IppGroup};

    ghost Value = { List IppGroup };

    ghost coded = { coded_list group_code };

    ghost view = { λ g. g.groups.items };

    ghost invariant = { λ g. AllByRecursion IsGroup g.groups.items };
}

impl ResponseGroups {
    /// Creates an empty list. The call takes no memory.
    pub fn new(alloc: Global) -> ResponseGroups
        ensures { result ≡ [] }
    {
        ResponseGroups {
            groups: Vec::new(alloc),
        }
    }

    /// A list of one group. The only error is out of memory.
    pub fn one(alloc: Global, group: Group) -> Result<ResponseGroups, AllocError>
        requires { IsGroup group }
        ensures { IfOk result (λ groups. groups ≡ group ∷ []) }
    {
        let mut groups = Vec::with_capacity(alloc, 1)?;
        groups.push(group)?;
        Ok(ResponseGroups { groups })
    }

    /// The groups of a list.
    pub fn from_vec(groups: Vec<Group>) -> ResponseGroups
        requires { AllByRecursion IsGroup groups.items }
        ensures { result ≡ groups.items }
    {
        ResponseGroups { groups }
    }

    /// The list of the groups.
    pub fn into_vec(self) -> Vec<Group>
        ensures value { result.items ≡ self }
        ensures spelt { AllByRecursion IsGroup result.items }
    {
        self.groups
    }
}
