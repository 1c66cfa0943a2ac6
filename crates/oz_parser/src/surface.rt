//! Programs with sugar from their texts.

ghost use Rattle.std.specs.Prelude.{◌≡◌, ◌<◌, ◌^◌, length, IfOk};
ghost use Rattle.kernel_syntax.specs.Sugar.{Statements};
ghost use Rattle.kernel_syntax.specs.SugarView.{statements_in};
ghost use Rattle.oz_grammar.specs.declared.fault.TextFault.{TextFault};
ghost use Rattle.oz_symbols.specs.TextSymbols.{AreSymbols};
ghost use Rattle.surface_grammar.specs.Texts.{Reads, FaultOf};
ghost use Rattle.oz_parser.specs.ParseAnswers.{IsParse, IsAnswer, IsFaultAnswer, IfFault, IsSurface};

use crate::error::ParseError;
use crate::parser::error_of;
use kernel_syntax::Surface;
use oz_grammar::Symbol;
use oz_symbols::symbols_of;
use std::alloc::Global;
use surface_reader::read_program;

/// The program with sugar of a text's symbols, or the text's first fault.
fn surface(
    alloc: Global,
    text: &str,
    symbols: &[Symbol],
    starts: Vec<usize>,
) -> Result<Surface, ParseError>
    requires few { length symbols.now < 2 ^ 29 }
    requires symbols { AreSymbols text.now symbols.now starts.items }
    ensures { IsParse IsSurface FaultOf text.now result }
{
    match read_program(alloc, symbols) {
        Ok(tree) => Ok(Surface::new(tree, String::from_str(alloc, text)?, starts)),
        Err(stop) => Err(error_of(text, starts.as_slice(), stop)),
    }
}

/// The program with sugar of a text (CTM section 2.6), or the text's first fault: where several stand at one token, the first of
/// `FaultKind`'s list, and those at earlier tokens first. Time and memory grow with the text.
pub fn parse_surface(alloc: Global, text: &str) -> Result<Surface, ParseError>
    requires { length text.now < 2 ^ 28 }
    ensures read { IfOk result (λ s. IsSurface text.now s) }
    ensures refused { IfFault result (λ f. FaultOf text.now f) }
    ensures program { (s : Statements) → Reads text.now s → IsAnswer result (λ q. statements_in q.tree ≡ s) }
    ensures fault { (f : TextFault) → FaultOf text.now f → IsFaultAnswer result f }
{
    let (symbols, starts) = symbols_of(alloc, text)?;
    surface(alloc, text, symbols.as_slice(), starts)
}
