//! The symbols of a text.

ghost use Rattle.std.specs.Prelude.{◌≡◌, ◌++◌, ◌∷◌, [], ◌≤◌, length, IfOk, OnOk, MatchOption};
ghost use Rattle.oz_symbols.specs.TextSymbols.{is_end, AreSymbols, SoFar, IsFurther};

use crate::symbol::symbol_of;
use crate::texts::Texts;
use oz_grammar::Symbol;
use oz_lexer::{TokenKind, lex};
use std::alloc::{AllocError, Global};

fn is_end(kind: TokenKind) -> bool
    ensures { result ≡ is_end kind }
{
    matches!(kind, TokenKind::End)
}

/// One symbol more and its place. Room is made first: so the symbol is moved once.
#[inline(always)]
fn add(
    symbols: &mut Vec<Symbol>,
    starts: &mut Vec<usize>,
    symbol: Symbol,
    start: usize,
) -> Result<(), AllocError>
    ensures symbols { OnOk result (symbols.new.items ≡ symbols.old.items ++ symbol ∷ []) }
    ensures starts { OnOk result (starts.new.items ≡ starts.old.items ++ start ∷ []) }
{
    symbols.reserve(1)?;
    starts.reserve(1)?;
    symbols.push_reserved(symbol);
    starts.push_reserved(start);
    Ok(())
}

/// One symbol more, from a place on, and the place behind its token; none where it is the last.
fn next_symbol<'t>(
    alloc: Global,
    texts: &mut Texts<'t>,
    text: &'t str,
    at: usize,
    symbols: &mut Vec<Symbol>,
    starts: &mut Vec<usize>,
) -> Result<Option<usize>, AllocError>
    requires { SoFar text.now at symbols.old.items starts.old.items }
    ensures { IfOk result (λ o. MatchOption o (AreSymbols text.now symbols.new.items starts.new.items) (IsFurther text.now at symbols.new.items starts.new.items)) }
{
    match lex(text, at) {
        Ok(token) => {
            let symbol = symbol_of(alloc, texts, &token)?;
            add(symbols, starts, symbol, token.start)?;
            if is_end(token.kind) {
                return Ok(None);
            }
            Ok(Some(token.end))
        }
        Err((kind, place)) => {
            add(symbols, starts, Symbol::Bad(kind), place)?;
            Ok(None)
        }
    }
}

/// The symbols of a text, and the places where their tokens begin. Room is made at once for one every four bytes; where there are
/// more, it grows.
pub fn symbols_of(alloc: Global, text: &str) -> Result<(Vec<Symbol>, Vec<usize>), AllocError>
    ensures { IfOk result (λ x. AreSymbols text.now x.0.items x.1.items) }
{
    let room = text.len() / 4 + 1;
    let mut symbols = Vec::with_capacity(alloc, room)?;
    let mut starts = Vec::with_capacity(alloc, room)?;
    let mut texts = Texts::new(alloc)?;
    let mut at = 0;
    'tokens: loop {
        match next_symbol(alloc, &mut texts, text, at, &mut symbols, &mut starts)? {
            Some(next) => at = next,
            None => return Ok((symbols, starts)),
        }
    }
}
