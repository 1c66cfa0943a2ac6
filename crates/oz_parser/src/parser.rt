//! Programs from their texts.

ghost use Rattle.std.specs.Prelude.{◌≡◌, ◌<◌, ◌≤◌, ◌^◌, List, true, length, IfOk};
ghost use Rattle.tree_node.specs.Each.{Each};
ghost use Rattle.kernel_syntax.specs.declared.stmt.Stmt.{Stmt};
ghost use Rattle.oz_grammar.specs.declared.fault.TextFault.{TextFault};
ghost use Rattle.oz_grammar.specs.Symbols.{ends_once};
ghost use Rattle.oz_grammar.specs.Reads.{ReadsSymbols, Reads, FaultOfSymbols, FaultOf};
ghost use Rattle.oz_symbols.specs.TextSymbols.{AreSymbols};
ghost use Rattle.oz_parser.specs.ParseAnswers.{IsParse, IsAnswer, IsFaultAnswer, IfFault, IsRead, Stands, IsFaultAt, IsErrorAt};

use crate::error::ParseError;
use kernel_check::check;
use kernel_syntax::{Program, Stmt};
use oz_grammar::{Fault, Symbol, TextFault};
use oz_lexer::line_and_column;
use oz_phrases::Stop;
use oz_symbols::symbols_of;
use std::alloc::Global;
use sugar_rows::rows_of;
use surface_reader::read_program;

/// The rows of the program of the kernel that these symbols are: they are checked first, and then read as a program with sugar, which
/// stands for itself.
#[tactic(auto, using(crate::proofs::Parsing::kernel_refused, crate::proofs::Parsing::never_refused))]
fn table(alloc: Global, symbols: &[Symbol]) -> Result<Vec<Stmt>, Stop>
    requires few { length symbols.now < 2 ^ 29 }
    requires ends { ends_once symbols.now ≡ true }
    ensures { IsRead (λ xs v. ReadsSymbols xs v.items) FaultOfSymbols symbols.now result }
{
    check(alloc, symbols)?;
    let tree = read_program(alloc, symbols)?;
    Ok(rows_of(alloc, tree.as_slice(), symbols.len())?)
}

/// A fault with its line and column, where so many symbols are left.
#[tactic(auto, using(crate::proofs::Parsing::each_within))]
fn text_fault(text: &str, starts: &[usize], fault: Fault) -> TextFault
    requires some { 0 < fault.left }
    requires left { fault.left ≤ length starts.now }
    requires within { Each (λ s. s ≤ length text.now) starts.now }
    ensures { IsFaultAt text.now starts.now fault result }
{
    let at = starts[starts.len() - fault.left];
    let (line, column) = line_and_column(text, at);
    TextFault {
        kind: fault.kind,
        line,
        column,
    }
}

/// The error of a text where reading its symbols was refused.
pub fn error_of(text: &str, starts: &[usize], stop: Stop) -> ParseError
    requires stands { Stands stop (length starts.now) }
    requires within { Each (λ s. s ≤ length text.now) starts.now }
    ensures { IsErrorAt text.now starts.now stop result }
{
    match stop {
        Stop::Memory => ParseError::Memory,
        Stop::Fault(fault) => ParseError::Text(text_fault(text, starts, fault)),
    }
}

/// The program of a text's symbols, or the text's first fault.
fn program(
    alloc: Global,
    text: &str,
    symbols: &[Symbol],
    starts: &[usize],
) -> Result<Program, ParseError>
    requires few { length symbols.now < 2 ^ 29 }
    requires symbols { AreSymbols text.now symbols.now starts.now }
    ensures { IsParse Reads FaultOf text.now result }
{
    match table(alloc, symbols) {
        Ok(rows) => Ok(Program::from_vec(alloc, rows)?),
        Err(stop) => Err(error_of(text, starts, stop)),
    }
}

/// The program of a kernel text (CTM section 2.3), or the text's first fault: where several stand at one token, the first of
/// `FaultKind`'s list, and those at earlier tokens first. Time and memory grow with the text.
pub fn parse(alloc: Global, text: &str) -> Result<Program, ParseError>
    requires { length text.now < 2 ^ 28 }
    ensures read { IfOk result (λ p. Reads text.now p) }
    ensures refused { IfFault result (λ f. FaultOf text.now f) }
    ensures program { (p : List Stmt) → Reads text.now p → IsAnswer result (λ q. q ≡ p) }
    ensures fault { (f : TextFault) → FaultOf text.now f → IsFaultAnswer result f }
{
    let (symbols, starts) = symbols_of(alloc, text)?;
    program(alloc, text, symbols.as_slice(), starts.as_slice())
}
