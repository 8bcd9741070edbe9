//! The events of the core.
ghost use Rattle.std.specs.Prelude.{◌≡◌};
ghost use Rattle.events.specs.Event.{is_query};
ghost use Rattle.events.specs.Target.{names};

use crate::queue::{ListQueue, RemoveJobs};
use base_types::{DeviceId, JobId, Report, Text};
use job_template::RequestAttributes;
use octets::{Document, Octets};
use printer_objects::Requested;
use settings_file::PrinterSettings;

/// The printer that a request's printer-uri names.
#[derive(Drop)]
pub enum Target {
    /// The printer of a name.
    Named(Text),
    /// The first printer of the settings.
    First,
    /// No printer of this server.
    Unknown,
}

impl Target {
    /// Returns whether the target names a printer. `First` names any printer: the first printer of a list is
    /// found.
    pub fn names(&self, printer: &PrinterSettings) -> bool
        ensures { result ≡ names self.now printer.now }
    {
        match self {
            Target::Named(name) => name.as_bytes() == printer.name.as_bytes(),
            Target::First => true,
            Target::Unknown => false,
        }
    }
}

/// The job that a request names (RFC 8011, section 4.1.5).
#[derive(Drop)]
pub enum JobTarget {
    /// The job of an id, which a job-uri names.
    Numbered(JobId),
    /// The job of an id, if it was sent to the printer: a printer-uri and a job-id name it.
    OfPrinter(Target, JobId),
    /// No job of this server.
    Unknown,
}

/// A request about a job: the job and the user.
#[derive(Drop)]
pub struct JobRequest {
    pub target: JobTarget,
    /// requesting-user-name: the user of the request, as it claims.
    pub user: Text,
}

/// A request about a printer: the printer and the user.
#[derive(Drop)]
pub struct PrinterRequest {
    pub target: Target,
    /// requesting-user-name: the user of the request, as it claims.
    pub user: Text,
}

/// The fields of a request for a job (RFC 8011, section 4.2.1).
#[derive(Drop)]
pub struct JobCreation {
    pub target: Target,
    /// requesting-user-name: the user of the request, as it claims.
    pub user: Text,
    /// job-name.
    pub name: Text,
    /// job-impressions, if the request has it and it isn't negative.
    pub impressions: Option<u32>,
    /// ipp-attribute-fidelity: whether the request is refused if an attribute of its template isn't
    /// supported.
    pub fidelity: bool,
    /// The attributes of the job group (RFC 8011, section 5.2).
    pub template: RequestAttributes,
}

/// The form in which a document is sent (RFC 8011, section 4.2.1.1).
#[derive(Drop)]
pub struct DocumentForm {
    /// compression, if the request has it.
    pub compression: Option<Text>,
    /// document-format, if the request has it.
    pub format: Option<Text>,
}

/// A Print-Job request (RFC 8011, section 4.2.1).
#[derive(Drop)]
pub struct PrintJob {
    pub job: JobCreation,
    pub form: DocumentForm,
    /// The document data.
    pub octets: Octets,
}

/// A Validate-Job request (RFC 8011, section 4.2.3): a Print-Job without its document data.
#[derive(Drop)]
pub struct ValidateJob {
    pub job: JobCreation,
    pub form: DocumentForm,
}

/// A Send-Document request (RFC 8011, section 4.3.1).
#[derive(Drop)]
pub struct SendDocument {
    pub job: JobRequest,
    pub form: DocumentForm,
    /// The document data.
    pub octets: Octets,
    /// last-document: whether no document follows.
    pub last: bool,
}

/// The job-hold-until of a Hold-Job.
#[derive(Drop)]
pub enum HoldUntil {
    /// `no-hold`: the job is to be released.
    NoHold,
    /// `indefinite`, or no value.
    Indefinite,
    /// Another value. The job is held, and the attribute is returned unchanged.
    Unsupported(RequestAttributes),
}

/// A Hold-Job request (RFC 8011, section 4.3.5).
#[derive(Drop)]
pub struct HoldJob {
    pub job: JobRequest,
    pub until: HoldUntil,
}

/// A Get-Job-Attributes request (RFC 8011, section 4.3.4).
#[derive(Drop)]
pub struct GetJobAttributes {
    pub target: JobTarget,
    pub requested: Requested,
}

/// A Get-Printer-Attributes request (RFC 8011, section 4.2.5).
#[derive(Drop)]
pub struct GetPrinterAttributes {
    pub target: Target,
    pub requested: Requested,
}

/// The which-jobs of a Get-Jobs.
#[derive(Drop)]
pub enum WhichJobs {
    /// `completed`: the finished jobs.
    Completed,
    /// `not-completed`, or no value: the unfinished jobs.
    NotCompleted,
    /// Another value, which isn't supported: the unchanged attribute.
    Unsupported(RequestAttributes),
}

/// A Get-Jobs request (RFC 8011, section 4.2.6).
#[derive(Drop)]
pub struct GetJobs {
    pub printer: PrinterRequest,
    pub which: WhichJobs,
    /// my-jobs: whether only jobs of the request's user are requested.
    pub mine: bool,
    /// limit, if the request has it and it is at least 1: the most jobs of the reply.
    pub limit: Option<u32>,
    pub requested: Requested,
}

/// A job of files that an LPD client sent (RFC 1179, section 6).
#[derive(Drop)]
pub struct SubmitFiles {
    /// The name of the printer.
    pub queue: Text,
    pub owner: Text,
    pub name: Text,
    /// The documents, one for each print line of the control file, in order.
    pub documents: Vec<Document>,
}

/// An event of the core: one complete request, or one report of a device, or a tick.
#[derive(Drop)]
pub enum Event {
    PrintJob(PrintJob),
    ValidateJob(ValidateJob),
    /// Create-Job (RFC 8011, section 4.2.4).
    CreateJob(JobCreation),
    SendDocument(SendDocument),
    /// Cancel-Job (RFC 8011, section 4.3.3).
    CancelJob(JobRequest),
    GetJobAttributes(GetJobAttributes),
    GetJobs(GetJobs),
    GetPrinterAttributes(GetPrinterAttributes),
    HoldJob(HoldJob),
    /// Release-Job (RFC 8011, section 4.3.6).
    ReleaseJob(JobRequest),
    /// Pause-Printer (RFC 8011, section 4.2.7).
    PausePrinter(PrinterRequest),
    /// Resume-Printer (RFC 8011, section 4.2.8).
    ResumePrinter(PrinterRequest),
    SubmitFiles(SubmitFiles),
    /// LPD's commands to send queue state (RFC 1179, sections 5.3 and 5.4).
    ListQueue(ListQueue),
    /// LPD's command to remove jobs (RFC 1179, section 5.5).
    RemoveJobs(RemoveJobs),
    Report(DeviceId, Report),
    /// The time went on.
    Tick,
}

impl Event {
    /// Returns whether the event is a query: no dispatch follows it.
    pub fn is_query(&self) -> bool
        ensures { result ≡ is_query self.now }
    {
        match self {
            Event::ValidateJob(_) | Event::GetPrinterAttributes(_) => true,
            Event::GetJobAttributes(_) | Event::GetJobs(_) | Event::ListQueue(_) => true,
            Event::PrintJob(_) | Event::CreateJob(_) | Event::SendDocument(_) => false,
            Event::CancelJob(_) | Event::HoldJob(_) | Event::ReleaseJob(_) => false,
            Event::PausePrinter(_) | Event::ResumePrinter(_) => false,
            Event::SubmitFiles(_) | Event::RemoveJobs(_) => false,
            Event::Report(_, _) | Event::Tick => false,
        }
    }
}
