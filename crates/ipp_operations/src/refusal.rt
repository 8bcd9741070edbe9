//! The bytes of a refusal: a reply of a status without further groups.
ghost use Rattle.std.specs.Prelude.{◌≡◌};
ghost use Rattle.ipp_operations.specs.Reply.{refusal_bytes};

use events::Status;

/// The bytes of a reply of a status with its charset and natural language alone (RFC 8011, section 4.1.4.2).
/// The calls take no memory.
pub fn ipp_refusal(status: Status, request_id: u32) -> [u8; 72]
    ensures { result ≡ refusal_bytes status request_id }
{
    let mut bytes =
        *b"\x01\x01\x00\x00\x00\x00\x00\x00\x01\x47\x00\x12attributes-charset\x00\x05utf-8\x48\x00\x1battributes-natural-language\x00\x02en\x03";
    let [high, low] = status.code().to_be_bytes();
    let [id_3, id_2, id_1, id_0] = request_id.to_be_bytes();
    bytes[2] = high;
    bytes[3] = low;
    bytes[4] = id_3;
    bytes[5] = id_2;
    bytes[6] = id_1;
    bytes[7] = id_0;
    bytes
}
