//! The attributes of a printer, as a table (RFC 8011, section 5.4).
ghost use Rattle.std.specs.Prelude.{◌≡◌};
ghost use Rattle.printer_objects.specs.Requested.{has_group, has_name};
ghost use Rattle.printer_objects.specs.PrinterAttribute.{is_wanted_of_printer, printer_attribute_group, printer_attribute_name, printer_table};

use crate::requested::is_requested;
use base_types::Text;

/// An attribute of a printer (RFC 8011, sections 5.4 and 5.2).
#[derive(Clone, Copy, PartialEq, Eq)]
pub enum PrinterAttribute {
    UriSupported,
    UriSecuritySupported,
    UriAuthenticationSupported,
    Name,
    State,
    StateReasons,
    IppVersionsSupported,
    OperationsSupported,
    MultipleDocumentJobsSupported,
    MultipleOperationTimeOut,
    CharsetConfigured,
    CharsetSupported,
    NaturalLanguageConfigured,
    GeneratedNaturalLanguageSupported,
    DocumentFormatDefault,
    DocumentFormatSupported,
    IsAcceptingJobs,
    QueuedJobCount,
    PdlOverrideSupported,
    UpTime,
    CompressionSupported,
    CopiesDefault,
    CopiesSupported,
    HoldUntilDefault,
    HoldUntilSupported,
    PriorityDefault,
    PrioritySupported,
    MediaDefault,
    MediaSupported,
    MediaReady,
    SidesDefault,
    SidesSupported,
    FinishingsDefault,
    FinishingsSupported,
}

impl PrinterAttribute {
    /// The number of attributes.
    pub const COUNT: usize = 34;

    /// All attributes, in the table's order.
    pub fn all() -> [PrinterAttribute; PrinterAttribute::COUNT]
        ensures { result ≡ printer_table }
    {
        [
            PrinterAttribute::UriSupported,
            PrinterAttribute::UriSecuritySupported,
            PrinterAttribute::UriAuthenticationSupported,
            PrinterAttribute::Name,
            PrinterAttribute::State,
            PrinterAttribute::StateReasons,
            PrinterAttribute::IppVersionsSupported,
            PrinterAttribute::OperationsSupported,
            PrinterAttribute::MultipleDocumentJobsSupported,
            PrinterAttribute::MultipleOperationTimeOut,
            PrinterAttribute::CharsetConfigured,
            PrinterAttribute::CharsetSupported,
            PrinterAttribute::NaturalLanguageConfigured,
            PrinterAttribute::GeneratedNaturalLanguageSupported,
            PrinterAttribute::DocumentFormatDefault,
            PrinterAttribute::DocumentFormatSupported,
            PrinterAttribute::IsAcceptingJobs,
            PrinterAttribute::QueuedJobCount,
            PrinterAttribute::PdlOverrideSupported,
            PrinterAttribute::UpTime,
            PrinterAttribute::CompressionSupported,
            PrinterAttribute::CopiesDefault,
            PrinterAttribute::CopiesSupported,
            PrinterAttribute::HoldUntilDefault,
            PrinterAttribute::HoldUntilSupported,
            PrinterAttribute::PriorityDefault,
            PrinterAttribute::PrioritySupported,
            PrinterAttribute::MediaDefault,
            PrinterAttribute::MediaSupported,
            PrinterAttribute::MediaReady,
            PrinterAttribute::SidesDefault,
            PrinterAttribute::SidesSupported,
            PrinterAttribute::FinishingsDefault,
            PrinterAttribute::FinishingsSupported,
        ]
    }

    /// The name of the attribute.
    pub fn name(self) -> &'static str
        ensures { result.now ≡ printer_attribute_name self }
    {
        match self {
            PrinterAttribute::UriSupported => "printer-uri-supported",
            PrinterAttribute::UriSecuritySupported => "uri-security-supported",
            PrinterAttribute::UriAuthenticationSupported => "uri-authentication-supported",
            PrinterAttribute::Name => "printer-name",
            PrinterAttribute::State => "printer-state",
            PrinterAttribute::StateReasons => "printer-state-reasons",
            PrinterAttribute::IppVersionsSupported => "ipp-versions-supported",
            PrinterAttribute::OperationsSupported => "operations-supported",
            PrinterAttribute::MultipleDocumentJobsSupported => "multiple-document-jobs-supported",
            PrinterAttribute::MultipleOperationTimeOut => "multiple-operation-time-out",
            PrinterAttribute::CharsetConfigured => "charset-configured",
            PrinterAttribute::CharsetSupported => "charset-supported",
            PrinterAttribute::NaturalLanguageConfigured => "natural-language-configured",
            PrinterAttribute::GeneratedNaturalLanguageSupported =>
                "generated-natural-language-supported",
            PrinterAttribute::DocumentFormatDefault => "document-format-default",
            PrinterAttribute::DocumentFormatSupported => "document-format-supported",
            PrinterAttribute::IsAcceptingJobs => "printer-is-accepting-jobs",
            PrinterAttribute::QueuedJobCount => "queued-job-count",
            PrinterAttribute::PdlOverrideSupported => "pdl-override-supported",
            PrinterAttribute::UpTime => "printer-up-time",
            PrinterAttribute::CompressionSupported => "compression-supported",
            PrinterAttribute::CopiesDefault => "copies-default",
            PrinterAttribute::CopiesSupported => "copies-supported",
            PrinterAttribute::HoldUntilDefault => "job-hold-until-default",
            PrinterAttribute::HoldUntilSupported => "job-hold-until-supported",
            PrinterAttribute::PriorityDefault => "job-priority-default",
            PrinterAttribute::PrioritySupported => "job-priority-supported",
            PrinterAttribute::MediaDefault => "media-default",
            PrinterAttribute::MediaSupported => "media-supported",
            PrinterAttribute::MediaReady => "media-ready",
            PrinterAttribute::SidesDefault => "sides-default",
            PrinterAttribute::SidesSupported => "sides-supported",
            PrinterAttribute::FinishingsDefault => "finishings-default",
            PrinterAttribute::FinishingsSupported => "finishings-supported",
        }
    }

    /// The name of the attribute's group in requested-attributes.
    pub fn group(self) -> &'static str
        ensures { result.now ≡ printer_attribute_group self }
    {
        match self {
            PrinterAttribute::CopiesDefault | PrinterAttribute::CopiesSupported => "job-template",
            PrinterAttribute::HoldUntilDefault | PrinterAttribute::HoldUntilSupported =>
                "job-template",
            PrinterAttribute::PriorityDefault | PrinterAttribute::PrioritySupported =>
                "job-template",
            PrinterAttribute::MediaDefault | PrinterAttribute::MediaSupported => "job-template",
            PrinterAttribute::MediaReady => "job-template",
            PrinterAttribute::SidesDefault | PrinterAttribute::SidesSupported => "job-template",
            PrinterAttribute::FinishingsDefault | PrinterAttribute::FinishingsSupported =>
                "job-template",
            _ => "printer-description",
        }
    }

    /// Returns whether requested-attributes asks for the attribute. `by_group` indicates whether it asks for a group,
    /// and `named` whether it has the attribute's name.
    #[tactic(auto, using(crate::proofs::AskedByName::by_name))]
    pub(crate) fn is_wanted(self, by_group: bool, named: bool, requested: &[Text]) -> bool
        requires group { by_group ≡ has_group requested.now }
        requires named { named ≡ has_name (printer_attribute_name self) requested.now }
        ensures { result ≡ is_wanted_of_printer requested.now self }
    {
        if by_group {
            is_requested(self.name(), self.group(), requested)
        } else {
            named
        }
    }
}
