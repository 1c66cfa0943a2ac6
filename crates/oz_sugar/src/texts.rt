//! The programs of the kernel that texts with sugar stand for.

ghost use Rattle.std.specs.Prelude.{◌≡◌, ◌<◌, ◌^◌, List, None, length, IfOk};
ghost use Rattle.kernel_syntax.specs.declared.stmt.Stmt.{Stmt};
ghost use Rattle.oz_grammar.specs.declared.fault.TextFault.{TextFault};
ghost use Rattle.oz_parser.specs.ParseAnswers.{IsParse, IsAnswer, IsFaultAnswer, IfFault};
ghost use Rattle.kernel_syntax.specs.SugarView.{statements_in};
ghost use Rattle.sugar_rows.specs.Put.{Expand};
ghost use Rattle.oz_sugar.specs.Deep.{deep, IsTooDeep};
ghost use Rattle.oz_sugar.specs.Texts.{Reads, FaultOf};

use crate::expansion::expanded_rows;
use crate::laws::texts_have_one_of_both;
use kernel_syntax::{Program, Surface};
use oz_parser::{ParseError, parse_surface};
use std::alloc::Global;

/// The program that a program with sugar stands for, which goes before the program takes more memory than its rows.
fn program_of(alloc: Global, surface: Surface) -> Result<Program, ParseError>
    ensures program { IfOk result (λ p. Expand (statements_in surface.tree) p) }
    ensures shallow { IfOk result (λ _. deep (statements_in surface.tree) ≡ None) }
    ensures refused { IfFault result (λ f. IsTooDeep surface f) }
{
    let rows = expanded_rows(alloc, &surface)?;
    drop(surface);
    Ok(Program::from_vec(alloc, rows)?)
}

/// The program that a text stands for, or its first fault.
fn read(alloc: Global, text: &str) -> Result<Program, ParseError>
    requires { length text.now < 2 ^ 28 }
    ensures { IsParse Reads FaultOf text.now result }
{
    match parse_surface(alloc, text) {
        Ok(surface) => program_of(alloc, surface),
        Err(error) => Err(error),
    }
}

/// The program of the kernel that a text with sugar stands for (CTM section 2.6), or the text's first fault: those of
/// `parse_surface`, and where a text has none, the first statement or value that stands for one within 200 others. Time and
/// memory grow with the text.
pub fn program_of_text(alloc: Global, text: &str) -> Result<Program, ParseError>
    requires { length text.now < 2 ^ 28 }
    ensures read { IfOk result (λ p. Reads text.now p) }
    ensures refused { IfFault result (λ f. FaultOf text.now f) }
    ensures program { (p : List Stmt) → Reads text.now p → IsAnswer result (λ q. q ≡ p) }
    ensures fault { (f : TextFault) → FaultOf text.now f → IsFaultAnswer result f }
{
    texts_have_one_of_both();
    read(alloc, text)
}
