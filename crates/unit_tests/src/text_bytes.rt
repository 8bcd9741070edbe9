//! Functions over the bytes of a text.
use text::{is_number, number_up_to, trimmed, without_parameters};

/// A value, and the value without its parameters: the media types of RFC 9110, section 8.3.1.
const VALUES: [(&[u8], &[u8]); 5] = [
    (b"text/html;charset=utf-8", b"text/html"),
    (b"Text/HTML;Charset=\"utf-8\"", b"Text/HTML"),
    (b"text/html; charset=\"utf-8\"", b"text/html"),
    (b" \tapplication/ipp ;a;b", b"application/ipp"),
    (b" ; a", b""),
];

#[test]
fn values_without_parameters(rt: HostRuntime) {
    for &(value, plain) in &VALUES {
        assert!(rt; without_parameters(value) == plain);
        assert!(rt; trimmed(plain) == plain);
    }
}

#[test]
fn numbers_in_words(rt: HostRuntime) {
    for &word in &[b"0".as_slice(), b"7", b"18446744073709551616"] {
        assert!(rt; is_number(word));
    }
    for &word in &[b"".as_slice(), b"00", b"07", b"-1", b"1 "] {
        assert!(rt; !is_number(word));
    }
    assert!(rt; number_up_to(b"007", 7) == Some(7));
    assert!(rt; number_up_to(b"8", 7).is_none());
    assert!(rt; number_up_to(b"", 7).is_none());
}
