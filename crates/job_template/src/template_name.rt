//! The attributes of the job template.
ghost use Rattle.std.specs.Prelude.{◌≡◌, find};
ghost use Rattle.std.specs.Option.{option_copied};
ghost use Rattle.std.specs.Str.{bytes_eq};
ghost use Rattle.job_template.specs.TemplateName.{template_table, name_of, template_name};

use printer_objects::JobAttribute;

/// The job template attributes that this server knows (RFC 8011, section 5.2).
#[derive(Clone, Copy)]
pub(crate) enum TemplateName {
    Copies,
    Media,
    Sides,
    Finishings,
    JobPriority,
    JobHoldUntil,
}

impl TemplateName {
    /// All template attributes, in the table's order.
    fn all() -> [TemplateName; 6]
        ensures { result ≡ template_table }
    {
        [
            TemplateName::Copies,
            TemplateName::Media,
            TemplateName::Sides,
            TemplateName::Finishings,
            TemplateName::JobPriority,
            TemplateName::JobHoldUntil,
        ]
    }

    /// The name of the attribute, which is also that of the job's attribute.
    pub(crate) fn name(self) -> &'static [u8]
        ensures { result.now ≡ name_of self }
    {
        let shown = match self {
            TemplateName::Copies => JobAttribute::Copies,
            TemplateName::Media => JobAttribute::Media,
            TemplateName::Sides => JobAttribute::Sides,
            TemplateName::Finishings => JobAttribute::Finishings,
            TemplateName::JobPriority => JobAttribute::Priority,
            TemplateName::JobHoldUntil => JobAttribute::HoldUntil,
        };
        shown.name().as_bytes()
    }
}

/// The template attribute of a name, if there is one.
pub(crate) fn template_name(name: &[u8]) -> Option<TemplateName>
    ensures { result ≡ template_name name.now }
{
    first_named(&TemplateName::all(), name).copied()
}

/// The first of the attributes that has a name.
fn first_named<'a>(all: &'a [TemplateName], name: &[u8]) -> Option<&'a TemplateName>
    ensures { option_copied result ≡ find (λ which. bytes_eq name.now (name_of which)) all.now }
{
    all.iter().find(|which| name == which.name())
}
