//! The line of a refusal.
ghost use Rattle.std.specs.Prelude.{◌≡◌, IfOk};
ghost use Rattle.program.specs.Output.{refused_as};

use std::alloc::{AllocError, Global};

/// The line for an input that is refused as `name`. The only error is out of memory.
pub fn refused_line(alloc: Global, name: &[u8]) -> Result<Vec<u8>, AllocError>
    ensures { IfOk result (λ line. line.items ≡ (refused_as name.now).text) }
{
    let mut line = Vec::from_slice(alloc, b"refused ")?;
    line.extend_from_slice(name)?;
    line.extend_from_slice(b"\n")?;
    Ok(line)
}
