//! The table of attributes of the operation group that are read, and of the operations that read them.
ghost use Rattle.std.specs.Prelude.{◌≡◌};
ghost use Rattle.ipp_operations.specs.OperationAttribute.{attribute_name, attribute_syntax, all_values_act, attributes_read};

use crate::syntax::Syntax;
use printer_objects::Operation;

/// An attribute of the operation group that an operation reads (RFC 8011, sections 4.1 to 4.3).
#[derive(Clone, Copy)]
pub(crate) enum OperationAttribute {
    PrinterUri,
    RequestingUserName,
    JobUri,
    JobId,
    JobName,
    IppAttributeFidelity,
    JobImpressions,
    DocumentFormat,
    Compression,
    LastDocument,
    RequestedAttributes,
    WhichJobs,
    Limit,
    MyJobs,
    JobHoldUntil,
}

impl OperationAttribute {
    /// The name of the attribute.
    pub fn name(self) -> &'static [u8]
        ensures { result.now ≡ attribute_name self }
    {
        match self {
            OperationAttribute::PrinterUri => b"printer-uri",
            OperationAttribute::RequestingUserName => b"requesting-user-name",
            OperationAttribute::JobUri => b"job-uri",
            OperationAttribute::JobId => b"job-id",
            OperationAttribute::JobName => b"job-name",
            OperationAttribute::IppAttributeFidelity => b"ipp-attribute-fidelity",
            OperationAttribute::JobImpressions => b"job-impressions",
            OperationAttribute::DocumentFormat => b"document-format",
            OperationAttribute::Compression => b"compression",
            OperationAttribute::LastDocument => b"last-document",
            OperationAttribute::RequestedAttributes => b"requested-attributes",
            OperationAttribute::WhichJobs => b"which-jobs",
            OperationAttribute::Limit => b"limit",
            OperationAttribute::MyJobs => b"my-jobs",
            OperationAttribute::JobHoldUntil => b"job-hold-until",
        }
    }

    /// The syntax of the attribute's values.
    pub fn syntax(self) -> Syntax
        ensures { result ≡ attribute_syntax self }
    {
        match self {
            OperationAttribute::PrinterUri => Syntax::Uri,
            OperationAttribute::RequestingUserName => Syntax::Name,
            OperationAttribute::JobUri => Syntax::Uri,
            OperationAttribute::JobId => Syntax::Integer,
            OperationAttribute::JobName => Syntax::Name,
            OperationAttribute::IppAttributeFidelity => Syntax::Boolean,
            OperationAttribute::JobImpressions => Syntax::Integer,
            OperationAttribute::DocumentFormat => Syntax::MimeMediaType,
            OperationAttribute::Compression => Syntax::Keyword,
            OperationAttribute::LastDocument => Syntax::Boolean,
            OperationAttribute::RequestedAttributes => Syntax::Keyword,
            OperationAttribute::WhichJobs => Syntax::Keyword,
            OperationAttribute::Limit => Syntax::Integer,
            OperationAttribute::MyJobs => Syntax::Boolean,
            OperationAttribute::JobHoldUntil => Syntax::KeywordOrName,
        }
    }

    /// Returns whether all values of the attribute are read; of any other attribute the first alone is.
    pub fn all_values_act(self) -> bool
        ensures { result ≡ all_values_act self }
    {
        matches!(self, OperationAttribute::RequestedAttributes)
    }
}

/// The attributes that Print-Job and Validate-Job read.
const OF_DOCUMENT_JOB: [OperationAttribute; 7] = [
    OperationAttribute::PrinterUri,
    OperationAttribute::RequestingUserName,
    OperationAttribute::JobName,
    OperationAttribute::IppAttributeFidelity,
    OperationAttribute::JobImpressions,
    OperationAttribute::DocumentFormat,
    OperationAttribute::Compression,
];

/// The attributes that Create-Job reads.
const OF_CREATE_JOB: [OperationAttribute; 5] = [
    OperationAttribute::PrinterUri,
    OperationAttribute::RequestingUserName,
    OperationAttribute::JobName,
    OperationAttribute::IppAttributeFidelity,
    OperationAttribute::JobImpressions,
];

/// The attributes that Send-Document reads.
const OF_SEND_DOCUMENT: [OperationAttribute; 7] = [
    OperationAttribute::PrinterUri,
    OperationAttribute::RequestingUserName,
    OperationAttribute::JobUri,
    OperationAttribute::JobId,
    OperationAttribute::DocumentFormat,
    OperationAttribute::Compression,
    OperationAttribute::LastDocument,
];

/// The attributes that Cancel-Job and Release-Job read.
const OF_JOB: [OperationAttribute; 4] = [
    OperationAttribute::PrinterUri,
    OperationAttribute::RequestingUserName,
    OperationAttribute::JobUri,
    OperationAttribute::JobId,
];

/// The attributes that Get-Job-Attributes reads.
const OF_GET_JOB_ATTRIBUTES: [OperationAttribute; 5] = [
    OperationAttribute::PrinterUri,
    OperationAttribute::RequestingUserName,
    OperationAttribute::JobUri,
    OperationAttribute::JobId,
    OperationAttribute::RequestedAttributes,
];

/// The attributes that Get-Jobs reads.
const OF_GET_JOBS: [OperationAttribute; 6] = [
    OperationAttribute::PrinterUri,
    OperationAttribute::RequestingUserName,
    OperationAttribute::RequestedAttributes,
    OperationAttribute::WhichJobs,
    OperationAttribute::Limit,
    OperationAttribute::MyJobs,
];

/// The attributes that Get-Printer-Attributes reads.
const OF_GET_PRINTER_ATTRIBUTES: [OperationAttribute; 3] = [
    OperationAttribute::PrinterUri,
    OperationAttribute::RequestingUserName,
    OperationAttribute::RequestedAttributes,
];

/// The attributes that Hold-Job reads.
const OF_HOLD_JOB: [OperationAttribute; 5] = [
    OperationAttribute::PrinterUri,
    OperationAttribute::RequestingUserName,
    OperationAttribute::JobUri,
    OperationAttribute::JobId,
    OperationAttribute::JobHoldUntil,
];

/// The attributes that Pause-Printer and Resume-Printer read.
const OF_PRINTER: [OperationAttribute; 2] = [
    OperationAttribute::PrinterUri,
    OperationAttribute::RequestingUserName,
];

/// The attributes that an operation reads. All others are ignored.
pub(crate) fn attributes_read(operation: Operation) -> &'static [OperationAttribute]
    ensures { result.now ≡ attributes_read operation }
{
    match operation {
        Operation::PrintJob | Operation::ValidateJob => &OF_DOCUMENT_JOB,
        Operation::CreateJob => &OF_CREATE_JOB,
        Operation::SendDocument => &OF_SEND_DOCUMENT,
        Operation::CancelJob | Operation::ReleaseJob => &OF_JOB,
        Operation::GetJobAttributes => &OF_GET_JOB_ATTRIBUTES,
        Operation::GetJobs => &OF_GET_JOBS,
        Operation::GetPrinterAttributes => &OF_GET_PRINTER_ATTRIBUTES,
        Operation::HoldJob => &OF_HOLD_JOB,
        Operation::PausePrinter | Operation::ResumePrinter => &OF_PRINTER,
    }
}
