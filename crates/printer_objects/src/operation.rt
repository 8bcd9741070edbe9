//! The operations of IPP and their codes (RFC 8011, section 5.4.15).
ghost use Rattle.std.specs.Prelude.{◌≡◌};
ghost use Rattle.printer_objects.specs.Operation.{operation_code, operation_table};

/// An operation that printers offer (RFC 8011, section 5.4.15).
#[derive(Clone, Copy, PartialEq, Eq)]
pub enum Operation {
    PrintJob,
    ValidateJob,
    CreateJob,
    SendDocument,
    CancelJob,
    GetJobAttributes,
    GetJobs,
    GetPrinterAttributes,
    HoldJob,
    ReleaseJob,
    PausePrinter,
    ResumePrinter,
}

impl Operation {
    /// The number of operations.
    pub const COUNT: usize = 12;

    /// All operations, by rising code.
    pub fn all() -> [Operation; Operation::COUNT]
        ensures { result ≡ operation_table }
    {
        [
            Operation::PrintJob,
            Operation::ValidateJob,
            Operation::CreateJob,
            Operation::SendDocument,
            Operation::CancelJob,
            Operation::GetJobAttributes,
            Operation::GetJobs,
            Operation::GetPrinterAttributes,
            Operation::HoldJob,
            Operation::ReleaseJob,
            Operation::PausePrinter,
            Operation::ResumePrinter,
        ]
    }

    /// The code of the operation in a request.
    pub fn code(self) -> u16
        ensures { result ≡ operation_code self }
    {
        match self {
            Operation::PrintJob => 0x0002,
            Operation::ValidateJob => 0x0004,
            Operation::CreateJob => 0x0005,
            Operation::SendDocument => 0x0006,
            Operation::CancelJob => 0x0008,
            Operation::GetJobAttributes => 0x0009,
            Operation::GetJobs => 0x000A,
            Operation::GetPrinterAttributes => 0x000B,
            Operation::HoldJob => 0x000C,
            Operation::ReleaseJob => 0x000D,
            Operation::PausePrinter => 0x0010,
            Operation::ResumePrinter => 0x0011,
        }
    }
}
