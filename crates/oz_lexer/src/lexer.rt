//! The lexer.

ghost use Rattle.std.specs.Prelude.{◌≡◌, ◌+◌, ◌-◌, ◌<◌, ◌≤◌, length, take, drop, Ok, Err, None, [], IfOk, OnOk, OnErr, MatchResult};
ghost use Rattle.std.specs.Str.{IsCharBoundary};
ghost use Rattle.oz_lexer.specs.Tokens.{IsLexemeAt, IsNextLexeme};
ghost use Rattle.oz_lexer.specs.Scan.{behind_blank};
ghost use Rattle.oz_lexer.specs.Lexer.{lexeme_of, fault_at, IsFaultNext, IsNextToken, IsSlice};

use crate::blank::behind_blanks;
use crate::front::front;
use crate::place::line_and_column;
use crate::token::{LexFault, LexKind, Token};
use std::marker::Model;

/// The slice of a text between two places that begin or end with ASCII bytes.
fn slice(text: &str, start: usize, end: usize) -> &str
    requires start { IsCharBoundary text.now start }
    requires end { IsCharBoundary text.now end }
    requires order { start ≤ end }
    ensures { result.now ≡ take (end - start) (drop start text.now) }
{
    &text[start..end]
}

/// The token that begins at a place, or the fault there with its place.
fn token(text: &str, start: usize) -> Result<Token<'_>, (LexKind, usize)>
    requires start { start ≤ length text.now }
    requires blank { behind_blank (drop start text.now) ≡ Ok None }
    ensures begins { MatchResult result (λ t. IsLexemeAt start (drop start text.now) (Ok t.kind) t.start t.text.now (drop t.end text.now)) (λ e. IsLexemeAt start (drop start text.now) (Err e.0) e.1 [] (drop start text.now)) }
    ensures slice { MatchResult result (λ t. IsSlice text.now start t) (λ e. e.1 ≤ length text.now) }
{
    match front(text.as_bytes().split_at(start).1) {
        Ok((kind, length)) => {
            let end = start + length;
            Ok(Token {
                kind,
                start,
                end,
                text: slice(text, start, end),
            })
        }
        Err((kind, before)) => Err((kind, start + before)),
    }
}

/// The next token of a text from a place on, or the first lexical fault there and its place in bytes. `Lexer::next` goes on
/// from token to token by it; who keeps the places of all tokens calls it.
pub fn lex(text: &str, at: usize) -> Result<Token<'_>, (LexKind, usize)>
    requires { at ≤ length text.now }
    ensures next { MatchResult result (λ t. IsNextLexeme at (drop at text.now) (lexeme_of t) (drop t.end text.now)) (λ e. IsFaultNext at (drop at text.now) (fault_at e.0 e.1)) }
    ensures slice { MatchResult result (λ t. IsSlice text.now at t) (λ e. e.1 ≤ length text.now) }
{
    match behind_blanks(text.as_bytes().split_at(at).1) {
        Ok(rest) => token(text, text.len() - rest.len()),
        Err(open) => Err((LexKind::OpenComment, text.len() - open.len())),
    }
}

/// The tokens of a text, one after the other. Contracts see the text, and how much of it is read.
pub struct Lexer<'a> {
    text: &'a str,
    at: usize,
}

impl<'a> Model for Lexer<'a> {
    ghost use Rattle.std.specs.Prelude.{◌≤◌, length};
    ghost use Rattle.oz_lexer.specs.Lexer.{LexerState};

    ghost Value = { LexerState };

    ghost view = { λ s. record { text = s.text.now; at = s.at } };

    ghost invariant = { λ s. s.at ≤ length s.text.now };
}

impl<'a> Lexer<'a> {
    /// A lexer at the beginning of a text.
    pub fn new(text: &'a str) -> Lexer<'a>
        ensures text { result.text ≡ text.now }
        ensures begin { result.at ≡ 0 }
    {
        Lexer { text, at: 0 }
    }

    /// The next token. At the end of the text it is the end, again and again, and after a fault the same fault.
    pub fn next(&mut self) -> Result<Token<'a>, LexFault>
        ensures token { IsNextToken self.old self.new result }
        ensures slice { IfOk result (λ t. IsSlice self.old.text self.old.at t) }
        ensures passed { IfOk result (λ t. self.new.at ≡ t.end) }
        ensures stays { OnErr result (self.new.at ≡ self.old.at) }
        ensures text { self.new.text ≡ self.old.text }
    {
        match lex(self.text, self.at) {
            Ok(token) => {
                self.at = token.end;
                Ok(token)
            }
            Err((kind, place)) => {
                let (line, column) = line_and_column(self.text, place);
                Err(LexFault { kind, line, column })
            }
        }
    }
}
