//! What a program with sugar stands for.

ghost use Rattle.std.specs.Prelude.{◌≡◌, ◌-◌, ◌≤◌, ℕ, Some, None, Err, IfOk, length, slice_index};
ghost use Rattle.tree_node.specs.Each.{Each};
ghost use Rattle.kernel_syntax.specs.SugarView.{statements_in};
ghost use Rattle.kernel_syntax.specs.SugarLimits.{FitsStatements};
ghost use Rattle.kernel_syntax.specs.Program.{IsProgram};
ghost use Rattle.oz_parser.specs.ParseAnswers.{IfFault};
ghost use Rattle.sugar_rows.specs.Put.{Expand};
ghost use Rattle.oz_sugar.specs.Deep.{deep, IsTooDeep};

use crate::depth::deep;
use kernel_syntax::sugar::Statement;
use kernel_syntax::{Program, Stmt, Surface};
use oz_lexer::line_and_column;
use oz_parser::{FaultKind, ParseError, TextFault};
use std::alloc::{AllocError, Global};
use sugar_rows::rows_of;

/// The rows of the program that a tree stands for, which is not too deep, with room for so many from the start.
#[tactic(auto, using(crate::proofs::Expansions::expansions_fit))]
fn program_rows(alloc: Global, tree: &[Statement], room: usize) -> Result<Vec<Stmt>, AllocError>
    requires fits { FitsStatements (statements_in tree.now) 0 }
    requires shallow { deep (statements_in tree.now) ≡ None }
    ensures program { IfOk result (λ r. IsProgram r.items) }
    ensures rows { IfOk result (λ r. Expand (statements_in tree.now) r.items) }
{
    rows_of(alloc, tree, room)
}

/// Where the symbol begins at which so many are left, and 0 where there is none.
fn start_of(starts: &[usize], left: usize) -> usize
    ensures { result ≡ slice_index starts.now (length starts.now - left) }
{
    let at = starts.len().saturating_sub(left);
    if at < starts.len() { starts[at] } else { 0 }
}

/// The fault of statements within 200 others, where so many symbols are left at the first of them.
fn too_deep(surface: &Surface, left: usize) -> TextFault
    requires { deep (statements_in surface.now.tree) ≡ Some left }
    ensures { IsTooDeep surface.now result }
{
    let at = start_of(surface.starts(), left);
    let (line, column) = line_and_column(surface.text(), at);
    TextFault {
        kind: FaultKind::Deep,
        line,
        column,
    }
}

/// The rows of the program of the kernel that a program with sugar stands for, or where that is too deep. The program with
/// sugar is wanted no more behind it.
pub fn expanded_rows(alloc: Global, surface: &Surface) -> Result<Vec<Stmt>, ParseError>
    ensures program { IfOk result (λ r. IsProgram r.items) }
    ensures rows { IfOk result (λ r. Expand (statements_in surface.now.tree) r.items) }
    ensures shallow { IfOk result (λ _. deep (statements_in surface.now.tree) ≡ None) }
    ensures refused { IfFault result (λ f. IsTooDeep surface.now f) }
{
    match deep(surface.tree()) {
        Some(left) => Err(ParseError::Text(too_deep(surface, left))),
        None => Ok(program_rows(alloc, surface.tree(), surface.starts().len())?),
    }
}

/// The program of the kernel that a program with sugar stands for (CTM section 2.6), or `Deep` at
/// the first statement or value, in the order of the text, of whose own kernel statements one stands within 200 others, or want of
/// memory. Time and memory grow with the tree.
pub fn expand(alloc: Global, surface: &Surface) -> Result<Program, ParseError>
    ensures program { IfOk result (λ p. Expand (statements_in surface.now.tree) p) }
    ensures shallow { IfOk result (λ _. deep (statements_in surface.now.tree) ≡ None) }
    ensures refused { IfFault result (λ f. IsTooDeep surface.now f) }
{
    let rows = expanded_rows(alloc, surface)?;
    Ok(Program::from_vec(alloc, rows)?)
}
