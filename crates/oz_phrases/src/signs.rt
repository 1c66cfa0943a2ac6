//! Signs, what ends a sequence, and what begins a statement.

ghost use Rattle.std.specs.Prelude.{◌≡◌, ◌+◌, length, IfOk};
ghost use Rattle.oz_grammar.specs.Points.{is_sign, expected_sign, is_closer, is_statement_start, expected_after};
ghost use Rattle.oz_grammar.specs.Reading.{is_end_of, is_at_statement, is_close_round, sign_at, close_at};
ghost use Rattle.oz_phrases.specs.ReadAnswers.{IsReadAs};

use crate::stop::{Stop, mismatch};
use oz_grammar::{Closer, Sign, Symbol, What};

/// Whether the symbol is this sign.
pub fn is_sign(sign: Sign, symbol: &Symbol) -> bool
    ensures { result ≡ is_sign sign symbol.now }
{
    match sign {
        Sign::Equals => matches!(symbol, Symbol::Equals),
        Sign::Then => matches!(symbol, Symbol::Then),
        Sign::Of => matches!(symbol, Symbol::Of),
        Sign::End => matches!(symbol, Symbol::End),
        Sign::OpenCurly => matches!(symbol, Symbol::OpenCurly),
        Sign::Dollar => matches!(symbol, Symbol::Dollar),
        Sign::Colon => matches!(symbol, Symbol::Colon),
        Sign::Bar => matches!(symbol, Symbol::Bar),
        Sign::Else => matches!(symbol, Symbol::Else),
        Sign::CloseRound => matches!(symbol, Symbol::CloseRound),
    }
}

/// What is expected where a sign has to stand.
pub fn expected_sign(sign: Sign) -> What
    ensures { result ≡ expected_sign sign }
{
    match sign {
        Sign::Equals => What::Equals,
        Sign::Then => What::Then,
        Sign::Of => What::Of,
        Sign::End => What::End,
        Sign::OpenCurly => What::OpenBrace,
        Sign::Dollar => What::Dollar,
        Sign::Colon => What::Colon,
        Sign::Bar => What::Bar,
        Sign::Else => What::Else,
        Sign::CloseRound => What::CloseRound,
    }
}

/// A symbol that stands alone at its place.
pub fn sign(sign: Sign, symbols: &[Symbol]) -> Result<&[Symbol], Stop>
    ensures read { IsReadAs (λ x. x.now) result (sign_at sign symbols.now) }
    ensures shorter { IfOk result (λ x. length x.now + 1 ≡ length symbols.now) }
{
    match symbols {
        [] => Err(mismatch(expected_sign(sign), symbols)),
        [symbol, rest @ ..] => {
            if is_sign(sign, symbol) {
                Ok(rest)
            } else {
                Err(mismatch(expected_sign(sign), symbols))
            }
        }
    }
}

/// The bracket that closes a built-in call.
pub fn close(symbols: &[Symbol]) -> Result<&[Symbol], Stop>
    ensures read { IsReadAs (λ x. x.now) result (close_at symbols.now) }
    ensures shorter { IfOk result (λ x. length x.now + 1 ≡ length symbols.now) }
{
    match symbols {
        [Symbol::CloseCurly, rest @ ..] => Ok(rest),
        _ => Err(mismatch(What::Close, symbols)),
    }
}

/// Whether the bracket that closes fields stands here.
pub fn is_close_round(symbols: &[Symbol]) -> bool
    ensures { result ≡ is_close_round symbols.now }
{
    match symbols {
        [Symbol::CloseRound, ..] => true,
        _ => false,
    }
}

fn is_closer(closer: Closer, symbol: &Symbol) -> bool
    ensures { result ≡ is_closer closer symbol.now }
{
    match closer {
        Closer::End => matches!(symbol, Symbol::End),
        Closer::Else => matches!(symbol, Symbol::Else),
        Closer::Catch => matches!(symbol, Symbol::Catch),
        Closer::EndOfText => matches!(symbol, Symbol::EndOfText),
    }
}

/// Whether a sequence ends here.
pub fn is_end_of(closer: Closer, symbols: &[Symbol]) -> bool
    ensures { result ≡ is_end_of closer symbols.now }
{
    match symbols {
        [] => false,
        [symbol, ..] => is_closer(closer, symbol),
    }
}

/// What is expected behind a statement of a sequence.
pub fn expected_after(closer: Closer) -> What
    ensures { result ≡ expected_after closer }
{
    match closer {
        Closer::End => What::StatementOrEnd,
        Closer::Else => What::StatementOrElse,
        Closer::Catch => What::StatementOrCatch,
        Closer::EndOfText => What::StatementOrEndOfText,
    }
}

fn is_statement_start(symbol: &Symbol) -> bool
    ensures { result ≡ is_statement_start symbol.now }
{
    match symbol {
        Symbol::Skip
        | Symbol::Variable(_)
        | Symbol::OpenCurly
        | Symbol::Raise
        | Symbol::Local
        | Symbol::Proc
        | Symbol::Thread
        | Symbol::If
        | Symbol::Case
        | Symbol::Try => true,
        _ => false,
    }
}

/// Whether a statement begins here.
pub fn is_at_statement(symbols: &[Symbol]) -> bool
    ensures { result ≡ is_at_statement symbols.now }
{
    match symbols {
        [] => false,
        [symbol, ..] => is_statement_start(symbol),
    }
}
