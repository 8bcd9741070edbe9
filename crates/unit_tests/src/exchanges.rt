//! The octets that IPP clients send, and the octets that they get (RFC 9112; RFC 8010, section 3).

/// The settings of a server with one printer and one device.
pub const SETTINGS: &str =
    "version = 1\nuri_base = \"ipp://localhost:631\"\noperators = [\"root\"]\n[[device]]\nname = \"A\"\nrate_one = 10\nmedia = [\"iso_a4_210x297mm\"]\nformats = [\"text/plain\"]\n[[printer]]\nname = \"lab\"\ndevices = [\"A\"]\nmedia_default = \"iso_a4_210x297mm\"\nformat_default = \"text/plain\"\n";

/// A client's stream to a server that has just started.
#[derive(Clone, Copy)]
pub struct Exchange {
    pub sent: &'static [u8],
    pub answered: &'static [u8],
    /// Whether the server closes the connection after the answer.
    pub closes: bool,
}

/// A Print-Job of five octets.
pub const PLAIN: Exchange = Exchange {
    sent: b"POST /printers/lab HTTP/1.1\r\nHost: localhost\r\nContent-Type: application/ipp\r\nContent-Length: 125\r\n\r\n\x01\x01\x00\x02\x00\x00\x00\x01\x01\x47\x00\x12attributes-charset\x00\x05utf-8\x48\x00\x1battributes-natural-language\x00\x02en\x45\x00\x0bprinter-uri\x00\x20ipp://localhost:631/printers/lab\x03hello",
    answered: b"HTTP/1.1 200 OK\r\nContent-Type: application/ipp\r\nContent-Length: 170\r\n\r\n\x01\x01\x00\x00\x00\x00\x00\x01\x01\x47\x00\x12attributes-charset\x00\x05utf-8\x48\x00\x1battributes-natural-language\x00\x02en\x02\x45\x00\x07job-uri\x00\x1aipp://localhost:631/jobs/1\x21\x00\x06job-id\x00\x04\x00\x00\x00\x01\x23\x00\x09job-state\x00\x04\x00\x00\x00\x03\x44\x00\x11job-state-reasons\x00\x04none\x03",
    closes: false,
};

/// The same job in one chunk, from a client that waits for the interim reply.
pub const CHUNKED: Exchange = Exchange {
    sent: b"POST /printers/lab HTTP/1.1\r\nHost: localhost\r\nContent-Type: application/ipp\r\nTransfer-Encoding: chunked\r\nExpect: 100-continue\r\n\r\n7d\r\n\x01\x01\x00\x02\x00\x00\x00\x01\x01\x47\x00\x12attributes-charset\x00\x05utf-8\x48\x00\x1battributes-natural-language\x00\x02en\x45\x00\x0bprinter-uri\x00\x20ipp://localhost:631/printers/lab\x03hello\r\n0\r\n\r\n",
    answered: b"HTTP/1.1 100 Continue\r\n\r\nHTTP/1.1 200 OK\r\nContent-Type: application/ipp\r\nContent-Length: 170\r\n\r\n\x01\x01\x00\x00\x00\x00\x00\x01\x01\x47\x00\x12attributes-charset\x00\x05utf-8\x48\x00\x1battributes-natural-language\x00\x02en\x02\x45\x00\x07job-uri\x00\x1aipp://localhost:631/jobs/1\x21\x00\x06job-id\x00\x04\x00\x00\x00\x01\x23\x00\x09job-state\x00\x04\x00\x00\x00\x03\x44\x00\x11job-state-reasons\x00\x04none\x03",
    closes: false,
};

/// The same job from a client that asks for the connection to be closed.
pub const LAST: Exchange = Exchange {
    sent: b"POST /printers/lab HTTP/1.1\r\nHost: localhost\r\nContent-Type: application/ipp\r\nConnection: close\r\nContent-Length: 125\r\n\r\n\x01\x01\x00\x02\x00\x00\x00\x01\x01\x47\x00\x12attributes-charset\x00\x05utf-8\x48\x00\x1battributes-natural-language\x00\x02en\x45\x00\x0bprinter-uri\x00\x20ipp://localhost:631/printers/lab\x03hello",
    answered: b"HTTP/1.1 200 OK\r\nContent-Type: application/ipp\r\nContent-Length: 170\r\nConnection: close\r\n\r\n\x01\x01\x00\x00\x00\x00\x00\x01\x01\x47\x00\x12attributes-charset\x00\x05utf-8\x48\x00\x1battributes-natural-language\x00\x02en\x02\x45\x00\x07job-uri\x00\x1aipp://localhost:631/jobs/1\x21\x00\x06job-id\x00\x04\x00\x00\x00\x01\x23\x00\x09job-state\x00\x04\x00\x00\x00\x03\x44\x00\x11job-state-reasons\x00\x04none\x03",
    closes: true,
};

/// Two requests one after the other.
pub const TWO: Exchange = Exchange {
    sent: b"POST /printers/lab HTTP/1.1\r\nHost: localhost\r\nContent-Type: application/ipp\r\nContent-Length: 125\r\n\r\n\x01\x01\x00\x02\x00\x00\x00\x01\x01\x47\x00\x12attributes-charset\x00\x05utf-8\x48\x00\x1battributes-natural-language\x00\x02en\x45\x00\x0bprinter-uri\x00\x20ipp://localhost:631/printers/lab\x03helloPOST /printers/lab HTTP/1.1\r\nHost: localhost\r\nContent-Type: application/ipp\r\nContent-Length: 125\r\n\r\n\x01\x01\x00\x02\x00\x00\x00\x01\x01\x47\x00\x12attributes-charset\x00\x05utf-8\x48\x00\x1battributes-natural-language\x00\x02en\x45\x00\x0bprinter-uri\x00\x20ipp://localhost:631/printers/lab\x03hello",
    answered: b"HTTP/1.1 200 OK\r\nContent-Type: application/ipp\r\nContent-Length: 170\r\n\r\n\x01\x01\x00\x00\x00\x00\x00\x01\x01\x47\x00\x12attributes-charset\x00\x05utf-8\x48\x00\x1battributes-natural-language\x00\x02en\x02\x45\x00\x07job-uri\x00\x1aipp://localhost:631/jobs/1\x21\x00\x06job-id\x00\x04\x00\x00\x00\x01\x23\x00\x09job-state\x00\x04\x00\x00\x00\x03\x44\x00\x11job-state-reasons\x00\x04none\x03HTTP/1.1 200 OK\r\nContent-Type: application/ipp\r\nContent-Length: 170\r\n\r\n\x01\x01\x00\x00\x00\x00\x00\x01\x01\x47\x00\x12attributes-charset\x00\x05utf-8\x48\x00\x1battributes-natural-language\x00\x02en\x02\x45\x00\x07job-uri\x00\x1aipp://localhost:631/jobs/2\x21\x00\x06job-id\x00\x04\x00\x00\x00\x02\x23\x00\x09job-state\x00\x04\x00\x00\x00\x03\x44\x00\x11job-state-reasons\x00\x04none\x03",
    closes: false,
};

/// A request with a length and with chunks.
pub const BOTH_FRAMINGS: Exchange = Exchange {
    sent: b"POST /printers/lab HTTP/1.1\r\nHost: localhost\r\nContent-Type: application/ipp\r\nTransfer-Encoding: chunked\r\nContent-Length: 125\r\n\r\n\x01\x01\x00\x02\x00\x00\x00\x01\x01\x47\x00\x12attributes-charset\x00\x05utf-8\x48\x00\x1battributes-natural-language\x00\x02en\x45\x00\x0bprinter-uri\x00\x20ipp://localhost:631/printers/lab\x03hello",
    answered: b"HTTP/1.1 400 Bad Request\r\nContent-Length: 0\r\nConnection: close\r\n\r\n",
    closes: true,
};

/// A request with a method that is not for printing.
pub const NOT_POST: Exchange = Exchange {
    sent: b"GET / HTTP/1.1\r\nHost: localhost\r\n\r\n",
    answered: b"HTTP/1.1 405 Method Not Allowed\r\nAllow: POST\r\nContent-Length: 0\r\nConnection: close\r\n\r\n",
    closes: true,
};

/// A request whose body has no whole header, and a further request.
pub const SHORT_BODY: Exchange = Exchange {
    sent: b"POST /printers/lab HTTP/1.1\r\nHost: localhost\r\nContent-Type: application/ipp\r\nContent-Length: 7\r\n\r\n\x01\x01\x00\x02\x00\x00\x00POST /printers/lab HTTP/1.1\r\nHost: localhost\r\nContent-Type: application/ipp\r\nContent-Length: 125\r\n\r\n\x01\x01\x00\x02\x00\x00\x00\x01\x01\x47\x00\x12attributes-charset\x00\x05utf-8\x48\x00\x1battributes-natural-language\x00\x02en\x45\x00\x0bprinter-uri\x00\x20ipp://localhost:631/printers/lab\x03hello",
    answered: b"HTTP/1.1 400 Bad Request\r\nContent-Length: 0\r\nConnection: close\r\n\r\n",
    closes: true,
};

/// The body of a Print-Job of five octets.
pub const BODY: &[u8] =
    b"\x01\x01\x00\x02\x00\x00\x00\x01\x01\x47\x00\x12attributes-charset\x00\x05utf-8\x48\x00\x1battributes-natural-language\x00\x02en\x45\x00\x0bprinter-uri\x00\x20ipp://localhost:631/printers/lab\x03hello";

/// The reply to the Print-Job of five octets.
pub const REPLY: &[u8] =
    b"\x01\x01\x00\x00\x00\x00\x00\x01\x01\x47\x00\x12attributes-charset\x00\x05utf-8\x48\x00\x1battributes-natural-language\x00\x02en\x02\x45\x00\x07job-uri\x00\x1aipp://localhost:631/jobs/1\x21\x00\x06job-id\x00\x04\x00\x00\x00\x01\x23\x00\x09job-state\x00\x04\x00\x00\x00\x03\x44\x00\x11job-state-reasons\x00\x04none\x03";
