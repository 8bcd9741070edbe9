//! Comments of a recording.
ghost use Rattle.std.specs.Prelude.{◌≡◌};
ghost use Rattle.recordings.specs.Noting.{are_comments, are_comments_from};

/// Returns whether bytes are comments: whole lines, each of which begins with `#`.
pub fn are_comments(bytes: &[u8]) -> bool
    ensures { result ≡ are_comments bytes.now }
{
    let mut start = true;
    for byte in bytes {
        if start && *byte != b'#' {
            return false;
        }
        start = !start && *byte == b'\n';
    }
    start
}
