//! The rows of what a tree stands for.

ghost use Rattle.std.specs.Prelude.{IfOk};
ghost use Rattle.kernel_syntax.specs.SugarView.{statements_in};
ghost use Rattle.sugar_rows.specs.Put.{Expand};

use crate::writer::Writer;
use kernel_syntax::Stmt;
use kernel_syntax::sugar::Statement;
use std::alloc::{AllocError, Global};

/// The rows of the program of the kernel that a tree stands for, with room for so many from the start. Time and memory grow with the
/// tree.
#[tactic(auto, using(crate::proofs::WritingLaws::program_law))]
pub fn rows_of(alloc: Global, tree: &[Statement], room: usize) -> Result<Vec<Stmt>, AllocError>
    ensures { IfOk result (λ r. Expand (statements_in tree.now) r.items) }
{
    let mut writer = Writer::new(alloc, room)?;
    writer.statements(tree)?;
    Ok(writer.into_rows())
}
