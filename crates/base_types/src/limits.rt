/// The bounds that the crates share, and those of the settings.
///
/// A bound on the bytes of a line includes its line feed. Times are in milliseconds.
pub struct Limits;

impl Limits {
    /// The last moment, in ms: 2^48, some 8,900 years.
    pub const LAST_MOMENT: u64 = 281_474_976_710_656;
    /// The greatest integer of IPP (RFC 8010, section 3.9).
    pub const LAST_INTEGER: u32 = 2_147_483_647;

    /// The most devices in the settings.
    pub const DEVICES: usize = 32;
    /// The most printers in the settings.
    pub const PRINTERS: usize = 8;
    /// The most jobs that are neither completed, canceled nor aborted.
    pub const UNFINISHED_JOBS: usize = 512;
    /// The number of finished jobs that are kept for queries.
    pub const FINISHED_JOBS_KEPT: usize = 256;

    /// The greatest job id.
    pub const LAST_JOB_ID: u32 = Limits::LAST_INTEGER;
    /// The most octets of a job's documents together.
    pub const JOB_OCTETS: usize = 16_777_216;
    /// The most documents of a job.
    pub const JOB_DOCUMENTS: usize = 100;
    /// The time after which a job is aborted whose next document hasn't come, in ms.
    pub const INCOMING_JOB_TIME: u64 = 300_000;

    /// The bytes of an IPP message before its groups: its version, its operation or status, and its
    /// request-id (RFC 8010, section 3.1.1).
    pub const IPP_HEADER_BYTES: usize = 8;
    /// The most bytes of the head of an IPP message, with its end tag.
    pub const IPP_HEAD_BYTES: usize = 65_536;
    /// The greatest depth of nested collections; the outermost has depth 1.
    pub const COLLECTION_DEPTH: usize = 8;

    /// The most bytes of an HTTP request's head.
    pub const HTTP_HEAD_BYTES: usize = 8_192;
    /// The most fields of an HTTP request's head.
    pub const HTTP_FIELDS: usize = 64;
    /// The most bytes of an HTTP request's body: an IPP head and a job's octets.
    pub const HTTP_BODY_BYTES: usize = Limits::IPP_HEAD_BYTES + Limits::JOB_OCTETS;
    /// The most bytes of an HTTP chunk-size line.
    pub const HTTP_CHUNK_LINE_BYTES: usize = 256;
    /// The most bytes of an HTTP trailer section.
    pub const HTTP_TRAILER_BYTES: usize = 8_192;

    /// The most bytes of an LPD command, subcommand or control line.
    pub const LPD_LINE_BYTES: usize = 1_024;
    /// The most bytes of the host in the name of an LPD file (RFC 1179, section 6).
    pub const LPD_HOST_BYTES: usize = 127;
    /// The most bytes of an LPD control file.
    pub const LPD_CONTROL_BYTES: usize = 65_536;

    /// The most bytes of a device's line.
    pub const DEVICE_LINE_BYTES: usize = 1_024;

    /// The most open connections, of all kinds together.
    pub const CONNECTIONS: usize = 64;
    /// The most bytes that may wait on a connection that is read.
    pub const WAITING_OUTPUT_BYTES: usize = 65_536;

    /// The most copies of a job.
    pub const COPIES: u32 = 999;
    /// The most estimated impressions of one copy of a job.
    pub const IMPRESSIONS: u32 = 10_000;
    /// The octets that are estimated as one impression.
    pub const OCTETS_PER_IMPRESSION: usize = 4_096;

    /// The highest priority.
    pub const HIGHEST_PRIORITY: u8 = 100;
    /// The priority of a job without job-priority.
    pub const DEFAULT_PRIORITY: u8 = 50;

    /// The longest time of a device for one impression, in ms.
    pub const RATE: u32 = 60_000;
    /// The longest time of a device before a job's first impression, in ms.
    pub const SETUP: u32 = 3_600_000;
    /// The longest time of one job, in ms: `SETUP + IMPRESSIONS * COPIES * RATE`.
    pub const JOB_TIME: u64 = 599_403_600_000;
    /// The longest time for which a device may report that it isn't free, in ms.
    pub const BUSY: u32 = Limits::LAST_INTEGER;
    /// The moment from which on each device may begin a job: 2^49, after each moment plus each time that a
    /// device may report.
    pub const NOT_BEFORE: u64 = 562_949_953_421_312;
    /// The longest wait of a device, in ms: 2^54.
    pub const WAIT: u64 = 18_014_398_509_481_984;
    /// The greatest total or price in the text of a plan, in ms: 2^62.
    pub const AMOUNT: u64 = 4_611_686_018_427_387_904;

    /// The most bytes of the name of a device or printer in the settings.
    pub const NAME_BYTES: usize = 32;
    /// The most bytes of the name of a medium in the settings.
    pub const MEDIA_BYTES: usize = 64;
    /// The most bytes of a document format in the settings.
    pub const FORMAT_BYTES: usize = 64;
    /// The most bytes of the settings' base of URIs.
    pub const URI_BASE_BYTES: usize = 128;
    /// The most entries of a list in the settings; a printer's list of devices may have [`Limits::DEVICES`].
    pub const LIST_ENTRIES: usize = 16;

    /// The most bytes that a program reads of its input.
    pub const INPUT_BYTES: usize = 67_108_864;
    /// The most reads in which a program reads its input.
    pub const INPUT_READS: u32 = 1_048_576;
}
