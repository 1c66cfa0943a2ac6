//! The bytes of a run.

ghost use Rattle.std.specs.Prelude.{◌≡◌, IfOk};
ghost use Rattle.oz_model.specs.Output.{output};

use std::alloc::{AllocError, Global};
use tree_node::Line;

/// The output of a run with these lines and this end line, as one text. A program writes the pieces one by one; this is
/// what they come to, for tests.
pub fn output(alloc: Global, lines: &[Line], end: &[u8]) -> Result<Vec<u8>, AllocError>
    ensures { IfOk result (λ bytes. bytes.items ≡ output lines.now end.now) }
{
    let mut bytes = Vec::new(alloc);
    for line in lines {
        bytes.extend_from_slice(line.as_piece())?;
    }
    bytes.extend_from_slice(end)?;
    bytes.push(b'\n')?;
    Ok(bytes)
}
