use base_types::Text;

/// The kind of a file (RFC 1179, sections 6.2 and 6.3).
#[derive(Clone, Copy, PartialEq, Eq)]
pub enum FileKind {
    /// A control file, which describes a job.
    Control,
    /// A data file, with the octets of a document.
    Data,
}

/// A command (RFC 1179, section 5). The queue is the text before the first space. Empty operands are left
/// out.
#[derive(Drop)]
pub enum LpdCommand {
    /// Print any waiting jobs.
    PrintWaiting {
        queue: Text,
    },
    /// Receive a printer job: subcommands follow.
    ReceiveJob {
        queue: Text,
    },
    /// Send queue state (short): of the ids and owners in `operands`, or of all jobs if it is empty.
    ListShort {
        queue: Text,
        operands: Vec<Text>,
    },
    /// Send queue state (long): of the ids and owners in `operands`, or of all jobs if it is empty.
    ListLong {
        queue: Text,
        operands: Vec<Text>,
    },
    /// Remove jobs: those of the ids and owners in `operands`, or the job that prints if it is empty. `agent`
    /// is the user who asks for it; it is empty if the command has none.
    RemoveJobs {
        queue: Text,
        agent: Text,
        operands: Vec<Text>,
    },
}

/// An announced file.
#[derive(Drop)]
pub struct FileHead {
    pub kind: FileKind,
    /// The length of the file in bytes: at least 1, and at most the limit of its kind.
    pub length: u32,
    /// `cf` or `df`, a letter, three digits, and the client's host.
    pub name: Text,
}

/// An item of an LPD client's stream.
#[derive(Drop)]
pub enum LpdItem {
    Command(LpdCommand),
    /// The client drops the pending files of its session (RFC 1179, section 6.1).
    Abort,
    /// A file is announced (RFC 1179, sections 6.2 and 6.3).
    Announced(FileHead),
    /// The file that was announced is whole. The reader lends it.
    File,
}
