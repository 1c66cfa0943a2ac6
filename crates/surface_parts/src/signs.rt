//! What begins a value, what begins a statement, and what closes a sequence.

ghost use Rattle.std.specs.Prelude.{◌≡◌, drop};
ghost use Rattle.surface_grammar.specs.Reading.{begins_compound, is_at_compound, is_at_statement, is_close, is_closer, is_end_of, expected_behind};
ghost use Rattle.surface_parts.specs.Signs.{is_dot, is_clause, is_variable, is_integer, is_if, is_case, goes_on};

use oz_grammar::{Symbol, What};
use surface_grammar::Closer;

/// Whether a primary of several symbols, or a bare atom, begins with this symbol.
fn begins_compound(symbol: &Symbol) -> bool
    ensures { result ≡ begins_compound symbol.now }
{
    match symbol {
        Symbol::Atom(_) | Symbol::OpenCurly | Symbol::Proc | Symbol::Fun | Symbol::OpenRound =>
            true,
        _ => false,
    }
}

/// Whether one begins here.
pub fn is_at_compound(symbols: &[Symbol]) -> bool
    ensures { result ≡ is_at_compound symbols.now }
{
    match symbols {
        [] => false,
        [symbol, ..] => begins_compound(symbol),
    }
}

/// Whether a statement begins here.
pub fn is_at_statement(symbols: &[Symbol]) -> bool
    ensures { result ≡ is_at_statement symbols.now }
{
    match symbols {
        [Symbol::Fun, ..] => true,
        _ => oz_phrases::is_at_statement(symbols),
    }
}

/// Whether the bracket that closes a call stands here.
pub fn is_close(symbols: &[Symbol]) -> bool
    ensures { result ≡ is_close symbols.now }
{
    match symbols {
        [Symbol::CloseCurly, ..] => true,
        _ => false,
    }
}

/// Whether a dot stands here.
pub fn is_dot(symbols: &[Symbol]) -> bool
    ensures { result ≡ is_dot symbols.now }
{
    match symbols {
        [Symbol::Dot, ..] => true,
        _ => false,
    }
}

/// Whether an operator, a test or a bar stands here: a value goes on behind its first part.
pub fn goes_on(symbols: &[Symbol]) -> bool
    ensures { result ≡ goes_on symbols.now }
{
    match symbols {
        [Symbol::Operator(_), ..] => true,
        [Symbol::Test(_), ..] => true,
        [Symbol::Bar, ..] => true,
        _ => false,
    }
}

/// Whether another clause begins here.
pub fn is_clause(symbols: &[Symbol]) -> bool
    ensures { result ≡ is_clause symbols.now }
{
    match symbols {
        [Symbol::Clause, ..] => true,
        _ => false,
    }
}

/// Whether a variable stands here.
pub fn is_variable(symbols: &[Symbol]) -> bool
    ensures { result ≡ is_variable symbols.now }
{
    match symbols {
        [Symbol::Variable(_), ..] => true,
        _ => false,
    }
}

/// Whether an integer stands here.
pub fn is_integer(symbols: &[Symbol]) -> bool
    ensures { result ≡ is_integer symbols.now }
{
    match symbols {
        [Symbol::Integer(_), ..] => true,
        _ => false,
    }
}

/// Whether `if` stands here.
pub fn is_if(symbols: &[Symbol]) -> bool
    ensures { result ≡ is_if symbols.now }
{
    match symbols {
        [Symbol::If, ..] => true,
        _ => false,
    }
}

/// Whether `case` stands here.
pub fn is_case(symbols: &[Symbol]) -> bool
    ensures { result ≡ is_case symbols.now }
{
    match symbols {
        [Symbol::Case, ..] => true,
        _ => false,
    }
}

/// The symbols behind the first.
pub fn behind(symbols: &[Symbol]) -> &[Symbol]
    ensures { result.now ≡ drop 1 symbols.now }
{
    match symbols {
        [] => symbols,
        [_, rest @ ..] => rest,
    }
}

/// Whether this symbol closes a sequence.
fn is_closer(closer: Closer, symbol: &Symbol) -> bool
    ensures { result ≡ is_closer closer symbol.now }
{
    match closer {
        Closer::End => matches!(symbol, Symbol::End),
        Closer::Else => matches!(symbol, Symbol::Else),
        Closer::OfClause => matches!(symbol, Symbol::Clause | Symbol::Else),
        Closer::OfTry => matches!(symbol, Symbol::Catch | Symbol::Finally),
        Closer::OfHandler => matches!(symbol, Symbol::Finally | Symbol::End),
        Closer::EndOfText => matches!(symbol, Symbol::EndOfText),
    }
}

/// Whether what closes a sequence stands here.
pub fn is_end_of(closer: Closer, symbols: &[Symbol]) -> bool
    ensures { result ≡ is_end_of closer symbols.now }
{
    match symbols {
        [] => false,
        [symbol, ..] => is_closer(closer, symbol),
    }
}

/// What is expected behind a statement of a sequence.
pub fn expected_behind(closer: Closer) -> What
    ensures { result ≡ expected_behind closer }
{
    match closer {
        Closer::End => What::StatementOrEnd,
        Closer::Else => What::StatementOrElse,
        Closer::OfClause => What::StatementOrClause,
        Closer::OfTry => What::StatementOrHandler,
        Closer::OfHandler => What::StatementOrFinally,
        Closer::EndOfText => What::StatementOrEndOfText,
    }
}
