//! The header of a body.
ghost use Rattle.std.specs.Prelude.{◌≡◌};
ghost use Rattle.ipp_operations.specs.ParsedRequest.{header_of, operation_in, operation_of, request_id_of};

use events::Status;
use printer_objects::Operation;

/// The first eight bytes of a request (RFC 8010, section 3.1.1), without the version's minor number.
#[derive(Clone, Copy)]
pub(crate) struct Header {
    pub major: u8,
    /// The code of the operation.
    pub operation: u16,
    /// The request-id, which the reply repeats.
    pub request_id: u32,
}

/// The header of a body, if the body has a whole one.
pub(crate) fn header_of(body: &[u8]) -> Option<Header>
    ensures { result ≡ header_of body.now }
{
    let [major, _, high, low, id_3, id_2, id_1, id_0, ..] = body else {
        return None;
    };
    Some(Header {
        major: *major,
        operation: u16::from_be_bytes([*high, *low]),
        request_id: u32::from_be_bytes([*id_3, *id_2, *id_1, *id_0]),
    })
}

/// The request-id of a body, if the body has a whole header. The call takes no memory.
pub fn request_id(body: &[u8]) -> Option<u32>
    ensures { result ≡ request_id_of body.now }
{
    header_of(body).map(|header| header.request_id)
}

/// The operation of a header. The error is the status of its refusal: its version isn't supported, or its
/// operation isn't in the table.
pub(crate) fn operation_of(header: Header) -> Result<Operation, Status>
    ensures { result ≡ operation_of header }
{
    if header.major != 1 && header.major != 2 {
        return Err(Status::VersionNotSupported);
    }
    match operation_in(header.operation) {
        Some(operation) => Ok(operation),
        None => Err(Status::OperationNotSupported),
    }
}

/// The operation of a code, if the table has it.
fn operation_in(code: u16) -> Option<Operation>
    ensures { result ≡ operation_in code }
{
    for operation in Operation::all() {
        if operation.code() == code {
            return Some(operation);
        }
    }
    None
}
