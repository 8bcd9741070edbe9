/// The length of a body, by the fields of the head (RFC 9112, section 6.3).
#[derive(Clone, Copy)]
pub(crate) enum Framing {
    /// A body of this many bytes.
    Length(u32),
    /// A body in chunks.
    Chunked,
}

/// The request of a head that passed the checks.
#[derive(Clone, Copy)]
pub(crate) struct Request {
    pub framing: Framing,
    /// Whether the client waits for `100 Continue` before it sends the body.
    pub invites: bool,
    /// Whether the connection closes after the reply.
    pub closes: bool,
}

/// What follows the bytes of a body or of a chunk.
#[derive(Clone, Copy)]
pub(crate) enum Following {
    /// The end of the body. Whether the exchange is the last.
    Close(bool),
    /// The end of a chunk. The most bytes that the chunks after it may have together; whether the connection
    /// closes after the reply.
    Chunk(u32, bool),
}

/// What a reader reads next. A `bool` indicates whether the connection closes after the reply; in
/// `Trailer` it indicates whether the exchange is the last.
#[derive(Clone, Copy)]
pub(crate) enum Awaited {
    Head,
    /// The client awaits `100 Continue`.
    Invitation(Framing, bool),
    /// This many bytes of the body.
    Body(u32, Following),
    /// The line with the size of a chunk. The most bytes that this chunk and those after it may have
    /// together.
    Size(u32, bool),
    /// The fields after the last chunk.
    Trailer(bool),
    /// No more input: the bytes that are fed are dropped.
    Nothing,
}
