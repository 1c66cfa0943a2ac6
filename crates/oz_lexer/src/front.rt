//! The token at the front of a text.

ghost use Rattle.std.specs.Prelude.{◌≡◌, ◌≤◌, length, false, IfOk, IfErr};
ghost use Rattle.oz_lexer.specs.Scan.{quote_from, within_name_limit, quoted_token, plain_token, front_of};

use crate::spelling::{is_control, is_escape, is_name, token_kind, token_length};
use crate::token::{LexKind, TokenKind};

/// How many bytes the quoted atom has that a quote begins before these, or its fault and how many bytes stand before that.
fn quote_length(inside: &[u8]) -> Result<usize, (LexKind, usize)>
    ensures { result ≡ quote_from false inside.now 1 }
{
    let mut escaping = false;
    for (at, byte) in inside.iter().enumerate() {
        if escaping {
            if !is_escape(*byte) {
                return Err((LexKind::BadEscape, at));
            }
            escaping = false;
        } else if *byte == b'\'' {
            return Ok(at + 2);
        } else if *byte == b'\\' {
            escaping = true;
        } else if is_control(*byte) {
            return Err((LexKind::BadChar, at + 1));
        }
    }
    Err((LexKind::OpenQuote, 0))
}

/// A token of so many bytes, if it is no name too long.
fn within_name_limit(kind: TokenKind, length: usize) -> Result<(TokenKind, usize), (LexKind, usize)>
    ensures { result ≡ within_name_limit kind length }
{
    if is_name(kind) && length > 255 {
        Err((LexKind::LongName, 0))
    } else {
        Ok((kind, length))
    }
}

fn quoted_token(inside: &[u8]) -> Result<(TokenKind, usize), (LexKind, usize)>
    ensures { result ≡ quoted_token (quote_from false inside.now 1) }
{
    match quote_length(inside) {
        Ok(length) => within_name_limit(TokenKind::Quoted, length),
        Err(fault) => Err(fault),
    }
}

/// The token at the front of a text that begins with no blank and no comment, and how many bytes it has, or the fault
/// there and how many bytes stand before it.
pub fn front(text: &[u8]) -> Result<(TokenKind, usize), (LexKind, usize)>
    ensures { result ≡ front_of text.now }
{
    match text {
        [] => Ok((TokenKind::End, 0)),
        [first, rest @ ..] => {
            if *first == b'\'' {
                return quoted_token(rest);
            }
            let length = token_length(*first, rest);
            if length == 0 {
                Err((LexKind::BadChar, 0))
            } else {
                within_name_limit(token_kind(*first, text.split_at(length).0), length)
            }
        }
    }
}
