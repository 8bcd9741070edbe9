//! The members of a collection in place.
ghost use Rattle.std.specs.Prelude.{◌≡◌, ◌∷◌};
ghost use Rattle.ipp_codec.specs.Views.{member_shown, value_shown, values_left};

use crate::view::{ValueView, Values};
use crate::walk::next_member;

/// A member of a collection: a name and one or more values.
#[derive(Clone, Copy)]
pub struct MemberView<'a> {
    pub(crate) name: &'a [u8],
    pub(crate) first: ValueView<'a>,
    pub(crate) rest: &'a [u8],
}

/// The members of a collection, in order.
#[derive(Clone, Copy)]
pub struct Members<'a> {
    pub(crate) rest: &'a [u8],
}

impl<'a> MemberView<'a> {
    /// The name of the member.
    pub fn name(&self) -> &'a [u8]
        ensures { result.now ≡ (member_shown self.now).name }
    {
        self.name
    }

    /// The first value of the member.
    pub fn first(&self) -> ValueView<'a>
        ensures { value_shown result ≡ (member_shown self.now).first }
    {
        self.first
    }

    /// The values of the member, from the first on.
    pub fn values(&self) -> Values<'a>
        ensures { values_left result ≡ (member_shown self.now).first ∷ (member_shown self.now).others }
    {
        Values {
            first: Some(self.first),
            rest: self.rest,
        }
    }
}

impl<'a> Iterator for Members<'a> {
    ghost use Rattle.std.specs.Prelude.{length};
    ghost use Rattle.std.specs.Iterator.{YieldsFirstBy, at_most};
    ghost use Rattle.ipp_codec.specs.Views.{members_left, member_shown};

    type Item = MemberView<'a>;

    ghost next_gives = { YieldsFirstBy member_shown members_left };

    ghost remaining = { λ s. at_most (length s.rest.now) };

    fn next(&mut self) -> Option<MemberView<'a>> {
        let Some(member) = next_member(self.rest) else {
            self.rest = &[];
            return None;
        };
        self.rest = member.rest;
        Some(member)
    }
}
