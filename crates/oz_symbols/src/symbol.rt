//! The symbol of each token.

ghost use Rattle.std.specs.Prelude.{◌≡◌, ◌-◌, ◌++◌, IfOk, OnOk, take, drop, length};
ghost use Rattle.oz_lexer.specs.Spelling.{text_in_quotes};
ghost use Rattle.oz_lexer.specs.Lexer.{lexeme_of};
ghost use Rattle.oz_symbols.specs.Escapes.{meaning_of, meaning_in_quotes, is_escape_sign};
ghost use Rattle.oz_grammar.specs.Symbols.{word_symbol, sign_symbol, quoted_text, symbol_of};

use crate::integer::integer_of;
use crate::texts::Texts;
use kernel_syntax::{Op, TestOp};
use oz_grammar::Symbol;
use oz_lexer::{Token, TokenKind};
use std::alloc::{AllocError, Global};
use tree_node::Text;

#[tactic(auto, unfolding(oz_grammar::specs::Symbols::word_symbol))]
fn word_symbol(word: &str) -> Symbol
    ensures { result ≡ word_symbol word.now }
{
    // the most frequent first
    match word {
        "local" => Symbol::Local,
        "in" => Symbol::In,
        "end" => Symbol::End,
        "if" => Symbol::If,
        "then" => Symbol::Then,
        "else" => Symbol::Else,
        "proc" => Symbol::Proc,
        "fun" => Symbol::Fun,
        "case" => Symbol::Case,
        "of" => Symbol::Of,
        "thread" => Symbol::Thread,
        "skip" => Symbol::Skip,
        "at" => Symbol::At,
        "try" => Symbol::Try,
        "catch" => Symbol::Catch,
        "raise" => Symbol::Raise,
        "div" => Symbol::Operator(Op::Div),
        "mod" => Symbol::Operator(Op::Mod),
        "finally" => Symbol::Finally,
        _ => Symbol::Unused,
    }
}

#[tactic(auto, unfolding(oz_grammar::specs::Symbols::sign_symbol))]
fn sign_symbol(sign: &str) -> Symbol
    ensures { result ≡ sign_symbol sign.now }
{
    match sign {
        "=" => Symbol::Equals,
        "(" => Symbol::OpenRound,
        ")" => Symbol::CloseRound,
        "{" => Symbol::OpenCurly,
        "}" => Symbol::CloseCurly,
        "$" => Symbol::Dollar,
        ":" => Symbol::Colon,
        "." => Symbol::Dot,
        "|" => Symbol::Bar,
        "+" => Symbol::Operator(Op::Add),
        "-" => Symbol::Operator(Op::Sub),
        "*" => Symbol::Operator(Op::Mul),
        "=<" => Symbol::Operator(Op::Le),
        "<" => Symbol::Operator(Op::Lt),
        ">=" => Symbol::Operator(Op::Ge),
        ">" => Symbol::Operator(Op::Gt),
        "==" => Symbol::Test(TestOp::Equal),
        "\\=" => Symbol::Test(TestOp::NotEqual),
        "[]" => Symbol::Clause,
        _ => Symbol::Unused,
    }
}

fn meaning_of(byte: u8) -> u8
    ensures { result ≡ meaning_of byte }
{
    if byte == b'n' { b'\n' } else { byte }
}

/// One byte more of what is spelled between quotes, behind a `\` that escapes or not, and whether it is one itself.
fn unescape(text: &mut Vec<u8>, escaping: bool, byte: u8) -> Result<bool, AllocError>
    ensures text { OnOk result (text.new.items ≡ text.old.items ++ meaning_in_quotes escaping byte) }
    ensures escapes { IfOk result (λ e. e ≡ is_escape_sign escaping byte) }
{
    if escaping {
        text.push(meaning_of(byte))?;
        Ok(false)
    } else if byte == b'\\' {
        Ok(true)
    } else {
        text.push(byte)?;
        Ok(false)
    }
}

/// The text that is spelled between quotes.
fn text_in_quotes(alloc: Global, spelled: &[u8]) -> Result<Vec<u8>, AllocError>
    ensures { IfOk result (λ v. v.items ≡ text_in_quotes spelled.now) }
{
    let mut text = Vec::new(alloc);
    let mut escaping = false;
    for byte in spelled {
        escaping = unescape(&mut text, escaping, *byte)?;
    }
    if escaping {
        text.push(b'\\')?;
        return Ok(text);
    }
    Ok(text)
}

/// The text of an atom in quotes.
fn quoted_text(alloc: Global, bytes: &[u8]) -> Result<Text, AllocError>
    ensures { IfOk result (λ t. t ≡ quoted_text bytes.now) }
{
    let inner = if bytes.len() < 2 { 0 } else { bytes.len() - 2 };
    let behind = bytes.split_at(bytes.len().min(1)).1;
    let text = text_in_quotes(alloc, behind.split_at(inner).0)?;
    Ok(Text::from_vec(text)?)
}

/// The symbol of a token. The texts of names are among those that were made before, or are made.
pub fn symbol_of<'t>(
    alloc: Global,
    texts: &mut Texts<'t>,
    token: &Token<'t>,
) -> Result<Symbol, AllocError>
    ensures { IfOk result (λ s. s ≡ symbol_of (lexeme_of token.now)) }
{
    let bytes = token.text.as_bytes();
    match token.kind {
        TokenKind::Variable => Ok(Symbol::Variable(texts.text(token.text)?)),
        TokenKind::Atom => Ok(Symbol::Atom(texts.text(token.text)?)),
        TokenKind::Quoted => Ok(Symbol::Atom(quoted_text(alloc, bytes)?)),
        TokenKind::Integer => Ok(Symbol::Integer(integer_of(bytes))),
        TokenKind::Word => Ok(word_symbol(token.text)),
        TokenKind::Sign => Ok(sign_symbol(token.text)),
        TokenKind::End => Ok(Symbol::EndOfText),
    }
}
