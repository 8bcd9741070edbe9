//! The lines of a trace.
ghost use Rattle.std.specs.Prelude.{◌≡◌, ◌<◌, ◌≤◌, ◌+◌, ◌∷◌, [], IfSome, length};
ghost use Rattle.std.specs.Option.{option_map_or};
ghost use Rattle.traces.specs.Lines.{lines_of, IsOneLine, IsFirst, HasNoStop, IsSplit};

use text::cut_at;

/// A line, without its line feed, and the bytes after it.
#[derive(Clone, Copy)]
pub struct CutLine<'a> {
    pub line: &'a [u8],
    pub later: &'a [u8],
}

/// A trace, cut at the line `.`.
#[derive(Clone, Copy)]
pub struct CutTrace<'a> {
    /// The lines before the line `.`.
    pub settings: &'a [u8],
    /// The lines after the line `.`.
    pub lines: &'a [u8],
    /// The number of the line `.`, counted from 1.
    pub stop: usize,
}

/// The first line of the bytes, and the bytes after it. The last line may lack its line feed. `None` if
/// there are no bytes.
pub fn next_line(bytes: &[u8]) -> Option<CutLine<'_>>
    ensures lines { lines_of bytes.now ≡ option_map_or (λ cut. cut.line.now ∷ lines_of cut.later.now) result [] }
    ensures one_line { IfSome result (λ cut. IsOneLine cut.line.now) }
    ensures cut { IfSome result (λ cut. IsFirst bytes.now cut.line.now cut.later.now) }
    ensures shorter { IfSome result (λ cut. length cut.later.now < length bytes.now) }
{
    if bytes.is_empty() {
        return None;
    }
    match cut_at(bytes, b'\n') {
        Some(cut) => Some(CutLine {
            line: cut.0,
            later: cut.1,
        }),
        None => Some(CutLine {
            line: bytes,
            later: &[],
        }),
    }
}

/// Cuts a trace into its settings and its other lines. `None` if it has no line `.`.
pub fn split_settings(trace: &[u8]) -> Option<CutTrace<'_>>
    ensures some { IfSome result (λ cut. IsSplit trace.now cut.settings.now cut.lines.now cut.stop) }
    ensures bound { IfSome result (λ cut. cut.stop + length cut.lines.now ≤ length trace.now) }
    ensures none { result ≡ None → HasNoStop trace.now }
{
    let mut rest = trace;
    let mut count = 0usize;
    while let Some(cut) = next_line(rest) {
        count += 1;
        if cut.line == b".".as_slice() {
            return Some(CutTrace {
                settings: &trace[..trace.len() - rest.len()],
                lines: cut.later,
                stop: count,
            });
        }
        rest = cut.later;
    }
    None
}
