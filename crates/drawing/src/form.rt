//! The forms of a picture.

use crate::chart::Chart;
use crate::picture::write_svg;
use crate::terminal::write_text;
use std::alloc::{AllocError, Global};

/// The form of a picture.
#[derive(Clone, Copy)]
pub enum Form {
    /// Elements of SVG.
    Svg,
    /// The characters of a terminal of 80 columns.
    Text,
}

/// Returns a picture of charts, below one another and over one scale, as whole lines. The only error is out
/// of memory.
pub fn draw_charts(alloc: Global, charts: &[Chart], form: Form) -> Result<String, AllocError> {
    match form {
        Form::Svg => write_svg(alloc, charts),
        Form::Text => write_text(alloc, charts),
    }
}
