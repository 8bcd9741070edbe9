//! The attributes of a request's job group, and those that the response returns (RFC 8011, section 4.1.7).
ghost use Rattle.std.specs.Prelude.{◌≡◌, ◌==◌, ◌&&◌, [], map, filter, not, length};
ghost use Rattle.std.specs.List.{AllByRecursion};
ghost use Rattle.std.specs.Option.{option_copied};
ghost use Rattle.ipp_codec.specs.Grammar.{IsAttribute};
ghost use Rattle.job_template.specs.Template.{named, is_supported};
ghost use Rattle.job_template.specs.Unsupported.{returned, unsupported_of};

use crate::request_attribute::make_returned;
use crate::template::is_unsupported;
use crate::template_name::TemplateName;
use ipp_codec::Attribute;
use printer_objects::Offer;
use std::alloc::Global;
use std::marker::Model;

/// Attributes of a request, of different names, in order, each with a spelling. In clauses they are the list
/// of their contents.
#[derive(Drop)]
pub struct RequestAttributes {
    attributes: Vec<Attribute>,
}

impl Model for RequestAttributes {
    ghost use Rattle.std.specs.Prelude.{List};
    ghost use Rattle.std.specs.Coded.{coded_list};
    ghost use Rattle.std.specs.List.{AllByRecursion};
    ghost use Rattle.ipp_codec.specs.Code.{attribute_code};
    ghost use Rattle.ipp_codec.specs.Grammar.{IsAttribute};
    ghost use Rattle.ipp_codec.specs.Message.{IppAttribute};

    ghost Value = { List IppAttribute };

    ghost coded = { coded_list attribute_code };

    ghost view = { λ a. a.attributes.items };

    ghost invariant = { λ a. AllByRecursion IsAttribute a.attributes.items };
}

impl RequestAttributes {
    /// Creates an empty list. The call takes no memory.
    pub fn new(alloc: Global) -> RequestAttributes
        ensures { result ≡ [] }
    {
        RequestAttributes {
            attributes: Vec::new(alloc),
        }
    }

    /// The attributes of a list, which have different names.
    pub fn from_vec(attributes: Vec<Attribute>) -> RequestAttributes
        requires { AllByRecursion IsAttribute attributes.items }
        ensures { result ≡ attributes.items }
    {
        RequestAttributes { attributes }
    }

    /// The list of the attributes.
    pub fn into_vec(self) -> Vec<Attribute>
        ensures value { result.items ≡ self }
        ensures spelt { AllByRecursion IsAttribute result.items }
    {
        self.attributes
    }

    /// Returns whether there are no attributes.
    pub fn is_empty(&self) -> bool
        ensures { result ≡ (length self.now == 0) }
    {
        self.attributes.is_empty()
    }

    /// Returns whether a request is refused for these unsupported attributes: there are some, and the request
    /// has `fidelity` (RFC 8011, section 4.2.1.1).
    pub fn breaks_fidelity(&self, fidelity: bool) -> bool
        ensures { result ≡ (fidelity && not (length self.now == 0)) }
    {
        fidelity && !self.is_empty()
    }

    /// The attribute of a name.
    pub(crate) fn named(&self, which: TemplateName) -> Option<&Attribute>
        ensures { option_copied result ≡ named which self.now }
    {
        let name = which.name();
        self.attributes
            .iter()
            .find(|attribute| name == attribute.name())
    }

    /// Changes the job group into the attributes that the response returns, in the same order. The call takes
    /// no memory.
    #[tactic(auto, unfolding(crate::specs::Unsupported::unsupported_of))]
    pub fn make_unsupported(&mut self, alloc: Global, offer: &Offer<'_>)
        ensures { self.new ≡ unsupported_of offer.now self.old }
    {
        self.keep_unsupported(offer);
        self.make_returned(alloc);
    }

    /// Keeps the attributes that the printer doesn't support.
    fn keep_unsupported(&mut self, offer: &Offer<'_>)
        ensures { self.new ≡ filter (λ a. not (is_supported offer.now a)) self.old }
    {
        self.attributes
            .retain(|attribute| is_unsupported(offer, attribute));
    }

    /// Changes each attribute into the form that the response returns.
    fn make_returned(&mut self, alloc: Global)
        ensures { self.new ≡ map returned self.old }
    {
        make_each_returned(&mut self.attributes, alloc);
    }
}

/// Changes each attribute into the form that the response returns.
fn make_each_returned(attributes: &mut [Attribute], alloc: Global)
    ensures { attributes.new ≡ map returned attributes.old }
{
    for attribute in attributes.iter_mut() {
        make_returned(attribute, alloc);
    }
}
