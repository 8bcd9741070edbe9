//! The formats of documents (RFC 8011, section 5.1.10), and their equality.
ghost use Rattle.std.specs.Prelude.{◌≡◌};
ghost use Rattle.printer_objects.specs.DocumentFormat.{is_same_format};

use text::without_parameters;

/// Returns whether two formats are equal without their parameters and without regard to the case of ASCII
/// letters.
#[tactic(auto, unfolding(crate::specs::DocumentFormat::is_same_format))]
pub(crate) fn is_same_format(asked: &[u8], known: &[u8]) -> bool
    ensures { result ≡ is_same_format asked.now known.now }
{
    without_parameters(asked).eq_ignore_ascii_case(without_parameters(known))
}
